//! The form of an operation.

ghost use Rattle.file_ops.specs.OpFits.{FitsOp};
ghost use Rattle.file_ops.specs.OpReading.{op_at};
ghost use Rattle.file_ops.specs.OpWriting.{op_data};

use crate::looking::look_at_op;
use crate::reading::parts;
use crate::writing::op_value;
use crate::{members, op_kind};
use base::Op;
use file_json::{Location, ReadError, Reader, Typed, Writer, object, others};
use serde_json::Value;
use std::alloc::{AllocError, Global};
use std::marker::PhantomData;

/// An operation as an object, over operands of the form `F`.
pub struct OpForm<F> {
    form: PhantomData<F>,
}

impl<F: Reader> Reader for OpForm<F> {
    type Out = Op<F::Out>;

    ghost reads = { op_at F.reads };

    ghost Fits = { FitsOp F.Fits };

    #[tactic(auto, unfolding(crate::specs::OpReading::op_at))]
    fn read(alloc: Global, at: &Location<'_>, json: &Value) -> Result<Op<F::Out>, ReadError> {
        object(alloc, at, json)?;
        let op = parts::<F>(alloc, at, json)?;
        others(alloc, at, members(op_kind(&op)), json)?;
        Ok(op)
    }
}

impl<F: Writer> Writer for OpForm<F> {
    type In = Op<F::In>;

    ghost writes = { op_data F.writes };

    fn write(alloc: Global, op: &Op<F::In>) -> Result<Value, AllocError> {
        op_value::<F>(alloc, op)
    }
}

impl<F: Typed> Typed for OpForm<F> {
    type Of = Op<F::Of>;

    ghost Says = { FitsOp F.Says };

    fn look(op: &Op<F::Of>) {
        look_at_op::<F>(op);
    }
}
