//! A law of operations.

ghost use Rattle.std.specs.Prelude.{◌≡◌, true};
ghost use Rattle.base.specs.Wholes.{is_whole};
ghost use Rattle.base.specs.declared.op.Op.{Op};
ghost use Rattle.base.specs.declared.shape.Shape.{Shape};
ghost use Rattle.kernel.specs.Anew.{IgnoresOld};

/// Where an operation is whole, the old bytes of its destination have no influence. It does nothing.
pub fn whole_leaves_nothing_old()
    ensures { (op : Op Shape) → is_whole op ≡ true → IgnoresOld op }
{}
