//! Rectangles of draws.

ghost use Rattle.file_ops.specs.Rects.{rect_at, rect_data, FitsRect};

use crate::MixForm;
use base::{Mix, Rect};
use file_json::{
    Location, NumberForm, ReadError, Reader, Typed, Writer, object, optional, others, required,
    with_form,
};
use serde_json::{Map, Value};
use std::alloc::{AllocError, Global};

/// A rectangle as an object. An absent `mix` is read as `Set`, and is always written.
pub struct RectForm;

impl Reader for RectForm {
    type Out = Rect;

    ghost reads = { rect_at };

    ghost Fits = { FitsRect };

    #[tactic(auto, unfolding(crate::specs::Rects::rect_at))]
    fn read(alloc: Global, at: &Location<'_>, json: &Value) -> Result<Rect, ReadError> {
        object(alloc, at, json)?;
        let x = required::<NumberForm>(alloc, at, "x", json)?;
        let y = required::<NumberForm>(alloc, at, "y", json)?;
        let width = required::<NumberForm>(alloc, at, "width", json)?;
        let height = required::<NumberForm>(alloc, at, "height", json)?;
        let mix = optional::<MixForm>(alloc, at, "mix", json)?.unwrap_or(Mix::Set);
        let value = required::<NumberForm>(alloc, at, "value", json)?;
        others(
            alloc,
            at,
            &["x", "y", "width", "height", "mix", "value"],
            json,
        )?;
        Ok(Rect {
            x,
            y,
            width,
            height,
            mix,
            value,
        })
    }
}

impl Writer for RectForm {
    type In = Rect;

    ghost writes = { rect_data };

    fn write(alloc: Global, rect: &Rect) -> Result<Value, AllocError> {
        let members = with_form::<NumberForm>(alloc, Map::new(alloc), "height", &rect.height)?;
        let members = with_form::<MixForm>(alloc, members, "mix", &rect.mix)?;
        let members = with_form::<NumberForm>(alloc, members, "value", &rect.value)?;
        let members = with_form::<NumberForm>(alloc, members, "width", &rect.width)?;
        let members = with_form::<NumberForm>(alloc, members, "x", &rect.x)?;
        let members = with_form::<NumberForm>(alloc, members, "y", &rect.y)?;
        Ok(Value::Object(members))
    }
}

impl Typed for RectForm {
    type Of = Rect;

    ghost Says = { FitsRect };

    fn look(rect: &Rect) {
        NumberForm::look(&rect.x);
        NumberForm::look(&rect.y);
        NumberForm::look(&rect.width);
        NumberForm::look(&rect.height);
        NumberForm::look(&rect.value);
    }
}
