//! What the types of a frame's parts say of them.

ghost use Rattle.file_frame.specs.Typed.{IsTypedSpot, IsTypedQueue, IsTypedResource, IsTypedWrite, IsTypedPass, IsTypedFrame};

use crate::pass::PassForm;
use crate::queue::QueueForm;
use crate::resource::ResourceForm;
use crate::spot::SpotForm;
use crate::whole_frame::FrameForm;
use crate::write::WriteForm;
use file_json::{ListForm, NameForm, Typed};
use file_ops::OpForm;
use file_shapes::HexForm;
use frame::{Frame, Pass, QueueDecl, Resource, Spot, Write};

impl<const FORMAT: u32> Typed for SpotForm<FORMAT> {
    type Of = Spot;

    ghost Says = { IsTypedSpot };

    fn look(spot: &Spot) {
        NameForm::look(&spot.name);
    }
}

impl Typed for QueueForm {
    type Of = QueueDecl;

    ghost Says = { IsTypedQueue };

    fn look(queue: &QueueDecl) {
        NameForm::look(&queue.name);
    }
}

impl<const FORMAT: u32> Typed for ResourceForm<FORMAT> {
    type Of = Resource;

    ghost Says = { IsTypedResource };

    fn look(resource: &Resource) {
        NameForm::look(&resource.name);
        if let Some(bytes) = &resource.import {
            HexForm::look(bytes);
        }
    }
}

impl<const FORMAT: u32> Typed for WriteForm<FORMAT> {
    type Of = Write<Spot>;

    ghost Says = { IsTypedWrite };

    fn look(write: &Write<Spot>) {
        <SpotForm<FORMAT>>::look(&write.what);
    }
}

impl<const FORMAT: u32> Typed for PassForm<FORMAT> {
    type Of = Pass;

    ghost Says = { IsTypedPass };

    fn look(pass: &Pass) {
        NameForm::look(&pass.name);
        NameForm::look(&pass.queue);
        <ListForm<SpotForm<FORMAT>>>::look(&pass.reads);
        <ListForm<WriteForm<FORMAT>>>::look(&pass.writes);
        <ListForm<OpForm<SpotForm<FORMAT>>>>::look(&pass.ops);
    }
}

impl<const FORMAT: u32> Typed for FrameForm<FORMAT> {
    type Of = Frame;

    ghost Says = { IsTypedFrame };

    fn look(frame: &Frame) {
        <ListForm<QueueForm>>::look(&frame.queues);
        <ListForm<ResourceForm<FORMAT>>>::look(&frame.resources);
        <ListForm<PassForm<FORMAT>>>::look(&frame.passes);
        <ListForm<SpotForm<FORMAT>>>::look(&frame.exports);
    }
}
