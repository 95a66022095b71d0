//! Layouts of images.

ghost use Rattle.std.specs.Prelude.{◌≡◌};
ghost use Rattle.std.specs.Str.{bytes_eq};
ghost use Rattle.vk.specs.Layouts.{layout_name, layout_number, layout_of, is_undefined};

/// How an image's texels lie in memory, after Vulkan's layouts of these names.
#[derive(Clone, Copy, Debug, PartialEq, Eq)]
pub enum Layout {
    Undefined,
    General,
    /// `COLOR_ATTACHMENT_OPTIMAL`
    ColorAttachment,
    /// `SHADER_READ_ONLY_OPTIMAL`
    ShaderReadOnly,
    /// `TRANSFER_SRC_OPTIMAL`
    TransferSrc,
    /// `TRANSFER_DST_OPTIMAL`
    TransferDst,
}

/// A transition between two layouts, which may be the same.
#[derive(Clone, Copy, Debug, PartialEq, Eq)]
pub struct Layouts {
    pub from: Layout,
    pub to: Layout,
}

impl Layout {
    /// The name in files and texts.
    pub fn name(self) -> &'static str
        ensures { result.now ≡ layout_name self }
    {
        match self {
            Layout::Undefined => "UNDEFINED",
            Layout::General => "GENERAL",
            Layout::ColorAttachment => "COLOR_ATTACHMENT_OPTIMAL",
            Layout::ShaderReadOnly => "SHADER_READ_ONLY_OPTIMAL",
            Layout::TransferSrc => "TRANSFER_SRC_OPTIMAL",
            Layout::TransferDst => "TRANSFER_DST_OPTIMAL",
        }
    }

    /// Whether it is `UNDEFINED`: a transition from it may drop the texels, and none leads to it.
    pub fn is_undefined(self) -> bool
        ensures { result ≡ is_undefined self }
    {
        match self {
            Layout::Undefined => true,
            _ => false,
        }
    }

    /// The number that Vulkan gives it.
    pub fn number(self) -> u32
        ensures { result ≡ layout_number self }
    {
        match self {
            Layout::Undefined => 0,
            Layout::General => 1,
            Layout::ColorAttachment => 2,
            Layout::ShaderReadOnly => 5,
            Layout::TransferSrc => 6,
            Layout::TransferDst => 7,
        }
    }

    fn is_named(self, name: &[u8]) -> bool
        ensures { result ≡ bytes_eq (layout_name self) name.now }
    {
        self.name().as_bytes() == name
    }

    /// The layout of a name, if it is one.
    pub fn read(name: &[u8]) -> Option<Layout>
        ensures { result ≡ layout_of name.now }
    {
        if Layout::Undefined.is_named(name) {
            Some(Layout::Undefined)
        } else if Layout::General.is_named(name) {
            Some(Layout::General)
        } else if Layout::ColorAttachment.is_named(name) {
            Some(Layout::ColorAttachment)
        } else if Layout::ShaderReadOnly.is_named(name) {
            Some(Layout::ShaderReadOnly)
        } else if Layout::TransferSrc.is_named(name) {
            Some(Layout::TransferSrc)
        } else if Layout::TransferDst.is_named(name) {
            Some(Layout::TransferDst)
        } else {
            None
        }
    }
}
