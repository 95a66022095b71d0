//! Files are opened by the names that a line has.

use crate::input::Input;
use base_io::ReadSource;
use cli::FileName;
use progress::{Meter, MeterReader};
use std::io::Eprint;
use std::rt::Files;
use std::sync::Wait;
use std::{fs, io};
use top::Opener;

/// Opens files, and tells the meter of each.
#[derive(Drop)]
pub struct Disk<'a, R> {
    rt: &'a R,
    meter: &'a Meter,
}

impl<'a, R: io::Input + Files + Eprint + Wait> Disk<'a, R> {
    pub fn new(rt: &'a R, meter: &'a Meter) -> Self {
        Disk { rt, meter }
    }

    /// Standard input.
    pub fn standard(&self) -> ReadSource<Input<MeterReader<'a, R, R::Reader>, R::File>> {
        let reader = MeterReader::new(self.rt, self.meter, self.rt.reader());
        ReadSource::new(Input::Standard(reader))
    }
}

impl<'a, R: io::Input + Files + Eprint + Wait> Opener for Disk<'a, R> {
    type File = ReadSource<Input<MeterReader<'a, R, R::Reader>, R::File>>;

    fn open(&mut self, name: &FileName) -> Self::File {
        self.meter.begin_file();
        if name.is_standard_input() {
            return self.standard();
        }
        match fs::open(self.rt, name.as_str()) {
            Ok(file) => ReadSource::new(Input::File(file)),
            Err(_) => ReadSource::new(Input::Unopened),
        }
    }

    fn unread(&mut self, name: &FileName) {
        self.meter.hide(self.rt);
        let _ = eprintln!(self.rt; "framec: {} cannot be read", name.as_str());
    }
}
