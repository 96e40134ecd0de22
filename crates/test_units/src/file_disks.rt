// A disk over a file: a real one, and one of a file system that counts syncs and bytes. The clause `counted` of its calls says
// how many faults it counts.
ghost use Rattle.std.specs.Prelude.{◌≤◌, ◌+◌, ◌^◌};

use crate::disks::holds;
use base_device::{Disk, Failed, FileDisk, Lock, Obstacle};
use base_num::{Memory, Name};
use std::alloc::{Allocator, Global};
use std::cell::Cell;
use std::fs::{Metadata, OpenFile, OpenOptions};
use std::io;
use std::io::{ErrorKind, Read, Seek, SeekFrom, Write};
use std::rt::Files;
use std::test::Fail;

fn disk<R: Files>(rt: &R, alloc: Global, write: bool) -> Result<FileDisk<'_, R>, Memory> {
    let name = Name::new(alloc, "kept_file")?;
    Ok(FileDisk::at(rt, name, write))
}

// Tells whether calls of the missing file fail.
fn is_missing<R: Files>(rt: &R, alloc: Global) -> Result<bool, Memory>
where
    R::File: Lock,
{
    let mut disk = disk(rt, alloc, false)?;
    Ok(disk.len() == Err(Failed) && disk.sync() == Err(Failed))
}

fn writes<R: Files>(disk: &mut FileDisk<'_, R>) -> bool
where
    R::File: Lock,
{
    disk.write_at(0, b"abcd").is_ok()
        && disk.write_at(2, b"xyz").is_ok()
        && disk.sync().is_ok()
        && holds(disk, b"abxyz")
}

// Tells whether it is cut then, and no read goes past its end.
fn cuts<R: Files>(disk: &mut FileDisk<'_, R>) -> bool
where
    R::File: Lock,
{
    disk.cut(3).is_ok() && holds(disk, b"abx") && disk.read_at(2, &mut [0; 2]) == Err(Failed)
}

fn is_kept<R: Files>(rt: &R, alloc: Global) -> Result<bool, Memory>
where
    R::File: Lock,
{
    let mut disk = disk(rt, alloc, true)?;
    Ok(writes(&mut disk) && cuts(&mut disk))
}

// Tells whether it is read then, and not written.
fn is_only_read<R: Files>(rt: &R, alloc: Global) -> Result<bool, Memory>
where
    R::File: Lock,
{
    let mut disk = disk(rt, alloc, false)?;
    Ok(holds(&mut disk, b"abx") && disk.write_at(0, b"q") == Err(Failed))
}

// Tells whether it is found as it was when it is opened for writing again.
fn is_found_again<R: Files>(rt: &R, alloc: Global) -> Result<bool, Memory>
where
    R::File: Lock,
{
    let mut disk = disk(rt, alloc, true)?;
    Ok(holds(&mut disk, b"abx"))
}

// Tells whether a piece is read where it was written.
fn is_read_at<R: Files>(disk: &mut FileDisk<'_, R>, at: u64) -> bool
where
    R::File: Lock,
    requires { at ≤ 2 ^ 32 + 1 }
{
    let mut found = [0; 3];
    disk.write_at(at, b"far").is_ok()
        && disk.read_at(at, &mut found).is_ok()
        && found.as_slice() == b"far".as_slice()
}

// Tells whether it takes pieces at places of more than 16 and of more than 32 binary digits, and keeps its first bytes.
fn reaches_far<R: Files>(rt: &R, alloc: Global) -> Result<bool, Memory>
where
    R::File: Lock,
{
    let mut disk = disk(rt, alloc, true)?;
    Ok(
        is_read_at(&mut disk, (1 << 16) + 1)
            && is_read_at(&mut disk, (1 << 32) + 1)
            && disk.cut(3).is_ok()
            && holds(&mut disk, b"abx"),
    )
}

#[test]
fn keeps_a_file(rt: HostRuntime) -> Result<(), Fail> {
    assert!(rt; is_missing(&rt, rt.alloc())?);
    assert!(rt; is_kept(&rt, rt.alloc())?);
    assert!(rt;
        is_only_read(&rt, rt.alloc())?
            && is_found_again(&rt, rt.alloc())?
            && reaches_far(&rt, rt.alloc())?
    );
    std::fs::remove_file(&rt, "kept_file")?;
    Ok(())
}

// A file system with a folder of one file of at most eight bytes, empty at first. It counts the syncs of both, and the bytes that
// were written.
#[derive(Drop)]
struct OneFile<'a> {
    file: &'a Counted,
    folder: &'a Counted,
    is_held: bool,
}

fn files_of<'a>(file: &'a Counted, folder: &'a Counted, is_held: bool) -> OneFile<'a> {
    OneFile {
        file,
        folder,
        is_held,
    }
}

// The bytes of a file, and how often it was synced and how many bytes were written.
#[derive(Drop)]
struct Counted {
    held: Cell<[u8; 8]>,
    len: Cell<u64>,
    syncs: Cell<u64>,
    bytes: Cell<u64>,
}

impl Counted {
    fn new() -> Counted {
        Counted {
            held: Cell::new([0; 8]),
            len: Cell::new(0),
            syncs: Cell::new(0),
            bytes: Cell::new(0),
        }
    }

    // Tells whether so many syncs were counted, and so many bytes.
    fn is_at(&self, syncs: u64, bytes: u64) -> bool {
        self.syncs.get() == syncs && self.bytes.get() == bytes
    }

    // The byte at a place; none past the end.
    fn byte_at(&self, at: u64) -> Option<u8> {
        if at < self.len.get().min(8) {
            Some(self.held.get()[at as usize])
        } else {
            None
        }
    }

    // Writes a byte at a place, of which there are eight.
    fn put(&self, at: u64, byte: u8) {
        if at < 8 {
            let mut held = self.held.get();
            held[at as usize] = byte;
            self.held.set(held);
        }
        self.len.set(self.len.get().max(at.saturating_add(1)));
        self.bytes.set(self.bytes.get().saturating_add(1));
    }
}

// The file, or the folder, once it is open. Its third sync is refused, and a read or a write takes one byte.
#[derive(Drop)]
struct Opened<'a> {
    counted: &'a Counted,
    at: u64,
    is_held: bool,
}

impl<'a> Lock for Opened<'a> {
    fn take_lock(&self) -> bool {
        !self.is_held
    }
}

fn unsupported<T>() -> io::Result<T> {
    Err(io::Error::from(ErrorKind::Unsupported))
}

impl<'a> Read for Opened<'a> {
    fn read(&mut self, buf: &mut [u8]) -> io::Result<usize> {
        match self.counted.byte_at(self.at) {
            Some(byte) if !buf.is_empty() => {
                buf[0] = byte;
                self.at = self.at.saturating_add(1);
                Ok(1)
            }
            _ => Ok(0),
        }
    }
}

impl<'a> Write for Opened<'a> {
    fn write(&mut self, buf: &[u8]) -> io::Result<usize> {
        if buf.is_empty() {
            return Ok(0);
        }
        self.counted.put(self.at, buf[0]);
        self.at = self.at.saturating_add(1);
        Ok(1)
    }

    fn flush(&mut self) -> io::Result<()> {
        Ok(())
    }
}

impl<'a> Seek for Opened<'a> {
    fn seek(&mut self, to: SeekFrom) -> io::Result<u64> {
        let SeekFrom::Start(at) = to else {
            return unsupported();
        };
        self.at = at;
        Ok(at)
    }
}

impl<'a> OpenFile for Opened<'a> {
    fn metadata(&self) -> io::Result<Metadata> {
        Ok(Metadata::of_file(self.counted.len.get()))
    }

    fn set_len(&self, size: u64) -> io::Result<()> {
        self.counted.len.set(size);
        Ok(())
    }

    fn sync_all(&self) -> io::Result<()> {
        let count = self.counted.syncs.get();
        self.counted.syncs.set(count.saturating_add(1));
        if count == 2 {
            return unsupported();
        }
        Ok(())
    }

    fn sync_data(&self) -> io::Result<()> {
        Ok(())
    }
}

impl<'a> Files for OneFile<'a> {
    type File = Opened<'a>;

    type Dir = Opened<'a>;

    fn open_file(&self, _how: &OpenOptions, path: &str) -> io::Result<Opened<'a>> {
        let counted = match path {
            "folder/file" | "file" => self.file,
            "folder" | "." => self.folder,
            _ => return unsupported(),
        };
        Ok(Opened {
            counted,
            at: 0,
            is_held: self.is_held,
        })
    }

    fn open_dir(&self, _path: &str) -> io::Result<Opened<'a>> {
        unsupported()
    }

    fn metadata(&self, path: &str) -> io::Result<Metadata> {
        match path {
            "folder" => Ok(Metadata::of_dir()),
            _ => unsupported(),
        }
    }

    fn symlink_metadata(&self, _path: &str) -> io::Result<Metadata> {
        unsupported()
    }

    fn copy(&self, _from: &str, _to: &str) -> io::Result<u64> {
        unsupported()
    }

    fn rename(&self, _from: &str, _to: &str) -> io::Result<()> {
        unsupported()
    }

    fn remove_file(&self, _path: &str) -> io::Result<()> {
        unsupported()
    }

    fn create_dir(&self, _path: &str) -> io::Result<()> {
        unsupported()
    }

    fn remove_dir(&self, _path: &str) -> io::Result<()> {
        unsupported()
    }

    fn remove_dir_all<B: Allocator>(&self, _alloc: B, _path: &str) -> io::Result<()> {
        unsupported()
    }
}

// Tells whether the folder is synced when the file is opened, and the file then and when the disk is; a piece is written whole,
// and after a refused sync nothing is tried again.
fn syncs<R: Files>(files: &R, file: &Counted, folder: &Counted, name: Name) -> bool
where
    R::File: Lock,
{
    let mut disk = FileDisk::at(files, name, true);
    disk.write_at(0, b"abc").is_ok()
        && disk.cut(2).is_ok()
        && file.is_at(1, 3)
        && disk.sync().is_ok()
        && file.is_at(2, 3)
        && disk.sync() == Err(Failed)
        && disk.sync() == Err(Failed)
        && disk.write_at(2, b"d") == Err(Failed)
        && disk.cut(0) == Err(Failed)
        && file.is_at(3, 3)
        && folder.is_at(1, 0)
        && holds(&mut disk, b"ab")
}

// Tells whether a file with counts of its own is synced so.
fn syncs_anew(name: Name) -> bool {
    let (file, folder) = (Counted::new(), Counted::new());
    syncs(&files_of(&file, &folder, false), &file, &folder, name)
}

#[test]
fn syncs_the_file_and_its_folder(rt: HostRuntime) -> Result<(), Fail> {
    assert!(rt; syncs_anew(Name::new(rt.alloc(), "folder/file")?));
    assert!(rt; syncs_anew(Name::new(rt.alloc(), "file")?));
    Ok(())
}

// Tells whether a file is neither read nor written, and its disk says why.
fn is_refused<R: Files>(files: &R, file: &Counted, name: Name, obstacle: Option<Obstacle>) -> bool
where
    R::File: Lock,
{
    let mut disk = FileDisk::at(files, name, true);
    disk.len() == Err(Failed)
        && disk.write_at(0, b"abc") == Err(Failed)
        && file.bytes.get() == 0
        && disk.obstacle() == obstacle
}

// Tells whether a file is refused whose lock another opening holds, or none does.
fn is_refused_anew(is_held: bool, name: Name, obstacle: Option<Obstacle>) -> bool {
    let (file, folder) = (Counted::new(), Counted::new());
    is_refused(&files_of(&file, &folder, is_held), &file, name, obstacle)
}

// Tells whether the first call of a file fails that was synced so often, as its folder was.
fn fails_to_sync(file_syncs: u64, folder_syncs: u64, name: Name) -> bool {
    let (file, folder) = (Counted::new(), Counted::new());
    file.syncs.set(file_syncs);
    folder.syncs.set(folder_syncs);
    is_unread(&files_of(&file, &folder, false), name)
}

fn is_unread<R: Files>(files: &R, name: Name) -> bool
where
    R::File: Lock,
{
    let mut disk = FileDisk::at(files, name, true);
    disk.len() == Err(Failed) && disk.obstacle() == None
}

#[test]
fn refuses_a_file(rt: HostRuntime) -> Result<(), Fail> {
    let held = Some(Obstacle::Held);
    assert!(rt; is_refused_anew(true, Name::new(rt.alloc(), "folder/file")?, held));
    let other = Some(Obstacle::NoFile);
    assert!(rt; is_refused_anew(false, Name::new(rt.alloc(), "folder")?, other));
    let missing = Some(Obstacle::Folder);
    assert!(rt; is_refused_anew(false, Name::new(rt.alloc(), "missing/file")?, missing));
    assert!(rt; fails_to_sync(0, 2, Name::new(rt.alloc(), "file")?));
    assert!(rt; fails_to_sync(2, 0, Name::new(rt.alloc(), "file")?));
    Ok(())
}
