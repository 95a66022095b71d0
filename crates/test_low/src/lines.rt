use base::List;
use base_text::*;
use std::test::Fail;

#[test]
fn texts(rt: HostRuntime) -> Result<(), Fail> {
    let alloc = rt.alloc();
    let mut text = List::new(alloc);
    text.word(b"kept ")?;
    text.number(0)?;
    text.word(b" of ")?;
    text.number(18_446_744_073_709_551_615)?;
    text.end_line()?;
    text.hex_lines(&[])?;
    text.hex_lines(&[0x01, 0xfe, 0x9a])?;
    text.hex_lines(&[0xb0; 33])?;
    text.hex_lines(&[7; 32])?;
    assert!(&rt;
        text.as_slice()
            == b"kept 0 of 18446744073709551615\n\
          01fe9a\n\
          b0b0b0b0b0b0b0b0b0b0b0b0b0b0b0b0b0b0b0b0b0b0b0b0b0b0b0b0b0b0b0b0\n\
          b0\n\
          0707070707070707070707070707070707070707070707070707070707070707\n"
                .as_slice()
    );
    cut_back(&mut text, 4);
    assert!(&rt; text.as_slice() == b"kept".as_slice());
    Ok(())
}
