//! What files have limits on.

ghost use Rattle.std.specs.Prelude.{◌≡◌};
ghost use Rattle.base.specs.Limits.{limit_name};

/// A quantity with a limit, which a fault of frames or submissions names.
#[derive(Clone, Copy, Debug, PartialEq, Eq)]
pub enum Limit {
    /// Bytes of the input.
    Input,
    Queues,
    Resources,
    Passes,
    /// Operations of all passes together.
    Ops,
    /// Rectangles of all draws together.
    Rects,
    Exports,
    Memories,
    Pieces,
    Nodes,
    Readbacks,
    /// Texels along a side of an image.
    Side,
    /// Bytes of one resource or piece.
    Size,
    /// Bytes of all resources or memories together.
    Total,
    /// Layers of an image.
    Layers,
}

impl Limit {
    /// The name that a fault line prints.
    pub fn name(self) -> &'static str
        ensures { result.now ≡ limit_name self }
    {
        match self {
            Limit::Input => "Input",
            Limit::Queues => "Queues",
            Limit::Resources => "Resources",
            Limit::Passes => "Passes",
            Limit::Ops => "Ops",
            Limit::Rects => "Rects",
            Limit::Exports => "Exports",
            Limit::Memories => "Memories",
            Limit::Pieces => "Pieces",
            Limit::Nodes => "Nodes",
            Limit::Readbacks => "Readbacks",
            Limit::Side => "Side",
            Limit::Size => "Size",
            Limit::Total => "Total",
            Limit::Layers => "Layers",
        }
    }
}
