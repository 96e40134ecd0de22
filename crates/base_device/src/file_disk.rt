// A disk over a file of a runtime.
ghost use Rattle.std.specs.Prelude.{◌≡◌, ◌≤◌, ◌+◌, ◌^◌, length, is_ok, IfOk};
ghost use Rattle.base_device.specs.Disks.{unobservable, unobservable_lawful};
ghost use Rattle.base_device.specs.Causes.{HasCause, faults_after};

use crate::faults::counted;
use crate::file_calls::FileCalls;
use crate::file_end::Kept;
use crate::file_like::StdFile;
use crate::lock::Lock;
use crate::obstacle::{Obstacle, Refused};
use crate::{Disk, Failed};
use base_num::Name;
use std::fs::{OpenFile, OpenOptions, metadata};
use std::io;
use std::marker::Model;
use std::rt::Files;

/// A file of a runtime, opened at the first call. It tells nothing of its bytes. A refused call of
/// the file is a failed call, and so is a refused opening, for want of memory too. What is written is
/// locked while it is open. A sync succeeds only where the file that has this name then is as long as
/// the writes and cuts here have made it, and ends its last piece as it was written.
#[derive(Drop)]
pub struct FileDisk<'a, R: Files> {
    rt: &'a R,
    name: Name,
    write: bool,
    file: Option<FileCalls<StdFile<R::File>>>,
    obstacle: Option<Obstacle>,
    faults: u64,
}

impl<'a, R: Files> Model for FileDisk<'a, R> {
    ghost use Rattle.base_device.specs.Counted.{CountedFile};

    ghost Value = { CountedFile };

    ghost view = { λ d. record { name = d.name; write = d.write; faults = d.faults } };
}

impl<'a, R: Files> FileDisk<'a, R> {
    /// The file of this name, not yet opened, that has not failed. With `write` it is opened for
    /// reading and writing, and a missing one is made; the first call fails where another opening
    /// for writing holds it. Without, it is opened for reading, and the first call of a missing one
    /// fails, as each write, cut and sync does. The first call of what is no regular file fails.
    pub fn at(rt: &'a R, name: Name, write: bool) -> FileDisk<'a, R>
        ensures { result ≡ record { name = name; write = write; faults = 0 } }
    {
        FileDisk {
            rt,
            name,
            write,
            file: None,
            obstacle: None,
            faults: 0,
        }
    }

    /// Why the file was not opened, or no longer written, where more is known than that a call was refused.
    pub fn obstacle(&self) -> Option<Obstacle> {
        self.obstacle
    }
}

// Gives the open file. Opens it now where it was not opened yet.
fn file_of<'f, R: Files>(
    rt: &R,
    name: &Name,
    write: bool,
    file: &'f mut Option<FileCalls<StdFile<R::File>>>,
) -> Result<&'f mut FileCalls<StdFile<R::File>>, Refused>
where
    R::File: Lock,
{
    match file {
        Some(file) => Ok(file),
        None => Ok(file.insert(opened(rt, name.as_str(), write)?)),
    }
}

// Opens the file of this name. What is there and is no regular file is refused, unopened: opening a pipe would wait for
// whoever writes to it.
fn opened<R: Files>(rt: &R, name: &str, write: bool) -> Result<FileCalls<StdFile<R::File>>, Refused>
where
    R::File: Lock,
{
    if is_other(rt, name) {
        return Err(Refused(Some(Obstacle::NoFile)));
    }
    if !write {
        let file = OpenOptions::new().read(true).open(rt, name)?;
        return Ok(FileCalls::read_only(StdFile::new(file)));
    }
    let Ok(folder) = OpenOptions::new().read(true).open(rt, folder_of(name)) else {
        return Err(Refused(Some(Obstacle::Folder)));
    };
    let file = held(rt, name)?;
    folder.sync_all()?;
    FileCalls::writing(StdFile::new(file))
}

// Tells whether what stands there is no regular file.
fn is_other<R: Files>(rt: &R, name: &str) -> bool {
    match metadata(rt, name) {
        Ok(found) => !found.is_file(),
        Err(_) => false,
    }
}

// Opens the file for reading and writing, makes it where it is missing, and takes its lock.
fn held<R: Files>(rt: &R, name: &str) -> Result<R::File, Refused>
where
    R::File: Lock,
{
    let file = OpenOptions::new()
        .read(true)
        .write(true)
        .create(true)
        .open(rt, name)?;
    if !file.take_lock() {
        return Err(Refused(Some(Obstacle::Held)));
    }
    Ok(file)
}

// Opens afresh the file that has this name now, and tells whether it holds what has to be found.
fn is_found<R: Files>(rt: &R, name: &str, kept: &Kept) -> Result<bool, Refused> {
    if is_other(rt, name) {
        return Ok(false);
    }
    match OpenOptions::new().read(true).open(rt, name) {
        Ok(file) => FileCalls::read_only(StdFile::new(file)).holds(kept),
        Err(error) if error.kind() == io::ErrorKind::NotFound => Ok(false),
        Err(error) => Err(Refused::from(error)),
    }
}

// Gives the folder in which the file of this name stands.
fn folder_of(name: &str) -> &str {
    match name.rsplit_once('/') {
        None => ".",
        Some(("", _)) => "/",
        Some((folder, _)) => folder,
    }
}

impl<'a, R: Files> FileDisk<'a, R>
where
    R::File: Lock,
{
    fn measured(&mut self) -> Result<u64, Refused>
        ensures { self.new ≡ self.old }
    {
        file_of(self.rt, &self.name, self.write, &mut self.file)?.measured()
    }

    fn fetched(&mut self, at: u64, into: &mut [u8]) -> Result<(), Refused>
        ensures { self.new ≡ self.old }
    {
        file_of(self.rt, &self.name, self.write, &mut self.file)?.fetched(at, into)
    }

    fn put(&mut self, at: u64, piece: &[u8]) -> Result<(), Refused>
        requires { at + length piece.now ≤ 2 ^ 62 }
        ensures { self.new ≡ self.old }
    {
        file_of(self.rt, &self.name, self.write, &mut self.file)?.put(at, piece)
    }

    fn resized(&mut self, len: u64) -> Result<(), Refused>
        requires { len ≤ 2 ^ 62 }
        ensures { self.new ≡ self.old }
    {
        file_of(self.rt, &self.name, self.write, &mut self.file)?.resized(len)
    }

    // Syncs the file, and reads back by its name what was written last.
    fn synced(&mut self) -> Result<(), Refused>
        ensures { self.new ≡ self.old }
    {
        let file = file_of(self.rt, &self.name, self.write, &mut self.file)?;
        let kept = file.synced()?;
        if !is_found(self.rt, self.name.as_str(), &kept)? {
            return Err(Refused(Some(Obstacle::Changed)));
        }
        file.go_on(kept);
        Ok(())
    }

    // Gives the answer of a call: one that was refused is counted, and it is noted why.
    fn answered<T>(&mut self, outcome: Result<T, Refused>) -> Result<T, Failed>
        ensures value { IfOk result (λ value. outcome ≡ Ok value) }
        ensures same { is_ok result ≡ is_ok outcome }
        ensures cause { HasCause self.old.faults self.new.faults result }
        ensures counted { self.new
            ≡ record self.old { faults = faults_after self.old.faults result } }
    {
        if let Err(Refused(Some(why))) = outcome {
            self.obstacle = Some(why);
        }
        counted(&mut self.faults, outcome)
    }
}

impl<'a, R: Files> Disk for FileDisk<'a, R>
where
    R::File: Lock,
{
    ghost store = { λ d. unobservable };

    ghost readable = { λ d. 2 ^ 64 };

    ghost faults = { λ d. d.faults };

    ghost lawful = { λ d. unobservable_lawful };

    fn len(&mut self) -> Result<u64, Failed>
        ensures readable { IfOk result (λ n. n ≤ 2 ^ 64) }
        ensures cause { HasCause self.old.faults self.new.faults result }
        ensures counted { self.new
            ≡ record self.old { faults = faults_after self.old.faults result } }
    {
        let outcome = self.measured();
        self.answered(outcome)
    }

    fn read_at(&mut self, at: u64, into: &mut [u8]) -> Result<(), Failed>
        ensures cause { HasCause self.old.faults self.new.faults result }
        ensures counted { self.new
            ≡ record self.old { faults = faults_after self.old.faults result } }
    {
        let outcome = self.fetched(at, into);
        self.answered(outcome)
    }

    fn write_at(&mut self, at: u64, piece: &[u8]) -> Result<(), Failed>
        requires end { at + length piece.now ≤ 2 ^ 62 }
        ensures cause { HasCause self.old.faults self.new.faults result }
        ensures counted { self.new
            ≡ record self.old { faults = faults_after self.old.faults result } }
    {
        let outcome = self.put(at, piece);
        self.answered(outcome)
    }

    fn cut(&mut self, len: u64) -> Result<(), Failed>
        requires end { len ≤ 2 ^ 62 }
        ensures cause { HasCause self.old.faults self.new.faults result }
        ensures counted { self.new
            ≡ record self.old { faults = faults_after self.old.faults result } }
    {
        let outcome = self.resized(len);
        self.answered(outcome)
    }

    fn sync(&mut self) -> Result<(), Failed>
        ensures cause { HasCause self.old.faults self.new.faults result }
        ensures counted { self.new
            ≡ record self.old { faults = faults_after self.old.faults result } }
    {
        let outcome = self.synced();
        self.answered(outcome)
    }
}
