// A run over a session.
ghost use Rattle.commands.specs.Hands.{hand_of};

use crate::any_run::AnyRun;
use crate::asking::refusal;
use crate::lines::{put_last, put_last_line, put_last_stopped, put_line, put_reply, stop_status};
use crate::texts::tell_missing_text;
use bios_int13::{Int13, Regs, serve};
use flop_base::{LoadError, Shelf, Sink, Status, StoreError};
use floppy_jobs::Request;
use floppy_session::{Session, Shape};
use sector_model::{Reply, Station, Stop};
use std::alloc::{AllocError, Global};

/// A session, a file store (shelf) and an output (sink), held together.
#[derive(Drop)]
pub struct Run<'a, 'b, 'c, D: Station, S, K> {
    pub alloc: Global,
    pub session: &'a mut Session<D>,
    pub shelf: &'b mut S,
    pub out: &'c mut K,
}

impl<D: Station, S: Shelf, K: Sink> AnyRun for Run<'_, '_, '_, D, S, K> {
    ghost hand = { hand_of S.told S.fault_count K.told K.fault_count };

    fn alloc(&self) -> Global {
        self.alloc
    }

    fn shape(&self, bay: u8) -> Option<Shape> {
        self.session.shape(bay)
    }

    fn memory(&self, address: u32) -> u8 {
        self.session.station().memory(address)
    }

    fn load(&mut self, name: &str, most: usize) -> Result<Vec<u8>, LoadError> {
        self.shelf.load(self.alloc, name, most)
    }

    fn load_text(&mut self, name: &str, most: usize) -> Result<Vec<u8>, Status> {
        match self.shelf.load(self.alloc, name, most) {
            Ok(text) => Ok(text),
            Err(error) => Err(tell_missing_text(self.alloc, name, error, self.out)),
        }
    }

    fn ask(&mut self, request: &Request) -> Result<Reply, Status> {
        match self.session.run(self.shelf, request) {
            Ok(reply) => Ok(reply),
            Err(stop) => Err(put_last(self.alloc, self.out, &stop)),
        }
    }

    fn need(&mut self, request: &Request) -> Result<Reply, Status> {
        match self.session.run(self.shelf, request) {
            Ok(reply) => match refusal(&reply) {
                Some(reason) => Err(put_last_stopped(self.alloc, self.out, request, reason)),
                None => Ok(reply),
            },
            Err(stop) => Err(put_last(self.alloc, self.out, &stop)),
        }
    }

    fn int13(&mut self, front: &mut Int13, regs: Regs) -> Regs {
        serve(&mut self.session, front, regs)
    }

    fn tell(&mut self, request: &Request, reply: &Reply) -> Result<(), Status> {
        put_reply(self.alloc, self.out, request, reply)
    }

    fn say(&mut self, line: Result<String, AllocError>) -> Result<(), Status> {
        put_line(self.out, line)
    }

    fn finish(&mut self, line: Result<String, AllocError>, status: Status) -> Status {
        put_last_line(self.out, line, status)
    }

    fn tell_stop(&mut self, stop: &Stop) -> Status {
        put_last(self.alloc, self.out, stop)
    }

    fn store_last(
        &mut self,
        name: &str,
        bytes: &[u8],
        line: Result<String, AllocError>,
        status: Status,
    ) -> Status {
        match self.shelf.store(name, bytes) {
            Ok(()) => put_last_line(self.out, line, status),
            Err(StoreError::Failed) => Status::FileFault,
            Err(StoreError::NoMemory) => Status::NoMemory,
        }
    }

    fn end(&mut self) -> Result<(), Status> {
        match self.session.end(self.shelf) {
            Ok(()) => Ok(()),
            Err(stop) => Err(stop_status(&stop)),
        }
    }
}
