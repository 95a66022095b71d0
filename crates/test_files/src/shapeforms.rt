use base::{Family, List, Shape, Texel};
use file_json::{Location, Reader, TextForm, Typed, Writer};
use file_shapes::{Body, FamilyWord, HexForm, SharingWord, TexelWord, read_body, read_sharing};
use serde_json::Value;
use std::alloc::Global;
use std::test::Fail;
use vk::Sharing;

const IMAGE: Shape = Shape::Image {
    width: 2,
    height: 3,
    texel: Texel::R8,
};

// A file's resource, its body and sharing mode in format 1, and in format 2.
const BODIES: [(&str, Body, Sharing, Body, Sharing); 2] = [
    (
        r#"{"image":[2,3],"texel":"r8","layers":8,"sharing":"concurrent"}"#,
        Body {
            shape: IMAGE,
            layers: 1,
        },
        Sharing::Exclusive,
        Body {
            shape: IMAGE,
            layers: 8,
        },
        Sharing::Concurrent,
    ),
    (
        r#"{"buffer":5}"#,
        Body {
            shape: Shape::Buffer { size: 5 },
            layers: 1,
        },
        Sharing::Exclusive,
        Body {
            shape: Shape::Buffer { size: 5 },
            layers: 1,
        },
        Sharing::Exclusive,
    ),
];

fn found<const FORMAT: u32>(alloc: Global, text: &str) -> Result<(Body, Sharing), Fail> {
    let json = Value::from_str(alloc, text)?;
    let body = read_body::<FORMAT>(alloc, &Location::Top, &json)?;
    let sharing = read_sharing::<FORMAT>(alloc, &Location::Top, &json)?;
    Ok((body, sharing))
}

#[test]
fn bodies_in_both_formats(rt: HostRuntime) -> Result<(), Fail> {
    let alloc = rt.alloc();
    for (text, first, shared_first, second, shared_second) in &BODIES {
        assert!(&rt;
            found::<1>(alloc, text)? == (*first, *shared_first),
            "{text}"
        );
        assert!(&rt;
            found::<2>(alloc, text)? == (*second, *shared_second),
            "{text}"
        );
    }
    Ok(())
}

// The bytes of a text of hexadecimal digits, and the text that is written of them.
fn bytes(alloc: Global, text: &str) -> Result<(List<u8>, String), Fail> {
    let json = Value::from_str(alloc, text)?;
    let bytes = HexForm::read(alloc, &Location::Top, &json)?;
    HexForm::look(&bytes);
    let text = HexForm::write(alloc, &bytes)?.to_string(alloc)?;
    Ok((bytes, text))
}

#[test]
fn bytes_and_words(rt: HostRuntime) -> Result<(), Fail> {
    let alloc = rt.alloc();
    let (bytes, text) = bytes(alloc, r#""00fFA07e""#)?;
    assert!(&rt; bytes.as_slice() == [0u8, 255, 160, 126].as_slice());
    assert!(&rt; text.as_str() == r#""00ffa07e""#);
    let text = <TextForm<FamilyWord>>::write(alloc, &Family::Transfer)?.to_string(alloc)?;
    assert!(&rt; text.as_str() == r#""transfer""#);
    let text = <TextForm<TexelWord>>::write(alloc, &Texel::R32)?.to_string(alloc)?;
    assert!(&rt; text.as_str() == r#""r32""#);
    let text = <TextForm<SharingWord>>::write(alloc, &Sharing::Concurrent)?.to_string(alloc)?;
    assert!(&rt; text.as_str() == r#""concurrent""#);
    Ok(())
}
