// A disk over a real file that others change while it is written.
use base_device::{Disk, Failed, FileDisk, Lock, Obstacle};
use base_num::{Memory, Name};
use std::alloc::Global;
use std::fs::{OpenFile, OpenOptions};
use std::io;
use std::io::Write;
use std::rt::Files;
use std::test::Fail;

// A change of the file behind the disk's back.
#[derive(Clone, Copy, Debug, PartialEq, Eq)]
enum Change {
    Removed,
    Cut,
    Grown,
    Rewritten,
    Replaced,
    Folder,
    Copied,
}

// Writes these bytes over the first ones of a file, which is made where it is missing.
fn write_over<R: Files>(rt: &R, name: &str, bytes: &[u8]) -> io::Result<()> {
    let mut how = OpenOptions::new();
    how.write(true).create(true);
    how.open(rt, name)?.write_all(bytes)
}

fn set_len<R: Files>(rt: &R, name: &str, len: u64) -> io::Result<()> {
    OpenOptions::new().write(true).open(rt, name)?.set_len(len)
}

// Puts a file of these bytes in the place of the file.
fn replace<R: Files>(rt: &R, name: &str, bytes: &[u8]) -> io::Result<()> {
    std::fs::remove_file(rt, name)?;
    write_over(rt, name, bytes)
}

fn make_change<R: Files>(rt: &R, name: &str, how: Change) -> io::Result<()> {
    match how {
        Change::Removed => std::fs::remove_file(rt, name),
        Change::Cut => set_len(rt, name, 2),
        Change::Grown => set_len(rt, name, 9),
        Change::Rewritten => write_over(rt, name, b"abcdeg"),
        Change::Replaced => replace(rt, name, b"abcdeg"),
        Change::Folder => {
            std::fs::remove_file(rt, name)?;
            rt.create_dir(name)
        }
        Change::Copied => replace(rt, name, b"abcdef"),
    }
}

fn clean<R: Files>(rt: &R, name: &str, how: Change) -> io::Result<()> {
    match how {
        Change::Removed => Ok(()),
        Change::Folder => rt.remove_dir(name),
        _ => std::fs::remove_file(rt, name),
    }
}

// Tells whether the disk fails from now on, and says why.
fn is_given_up<R: Files>(disk: &mut FileDisk<'_, R>) -> bool
where
    R::File: Lock,
{
    disk.sync() == Err(Failed)
        && disk.sync() == Err(Failed)
        && disk.write_at(0, b"x") == Err(Failed)
        && disk.cut(0) == Err(Failed)
        && disk.obstacle() == Some(Obstacle::Changed)
}

fn six<'a, R: Files>(
    rt: &'a R,
    alloc: Global,
    name: &str,
) -> Result<Option<FileDisk<'a, R>>, Memory>
where
    R::File: Lock,
{
    let mut disk = FileDisk::at(rt, Name::new(alloc, name)?, true);
    if disk.write_at(0, b"abcdef").is_ok() && disk.sync().is_ok() && disk.obstacle() == None {
        return Ok(Some(disk));
    }
    Ok(None)
}

// Tells whether a change is found by the sync behind it.
fn is_found<R: Files>(rt: &R, alloc: Global, name: &str, how: Change) -> Result<bool, Fail>
where
    R::File: Lock,
{
    let Some(mut disk) = six(rt, alloc, name)? else {
        return Ok(false);
    };
    make_change(rt, name, how)?;
    let found = is_given_up(&mut disk);
    clean(rt, name, how)?;
    Ok(found)
}

#[test]
fn finds_a_change_at_a_sync(rt: HostRuntime) -> Result<(), Fail> {
    let name = "changed_file";
    assert!(rt; is_found(&rt, rt.alloc(), name, Change::Removed)?);
    assert!(rt; is_found(&rt, rt.alloc(), name, Change::Cut)?);
    assert!(rt; is_found(&rt, rt.alloc(), name, Change::Grown)?);
    assert!(rt; is_found(&rt, rt.alloc(), name, Change::Rewritten)?);
    assert!(rt; is_found(&rt, rt.alloc(), name, Change::Replaced)?);
    assert!(rt; is_found(&rt, rt.alloc(), name, Change::Folder)?);
    Ok(())
}

// Tells whether nothing is written or cut where the file has another length.
fn is_untouched<R: Files>(rt: &R, alloc: Global, name: &str, how: Change) -> Result<bool, Fail>
where
    R::File: Lock,
{
    let Some(mut disk) = six(rt, alloc, name)? else {
        return Ok(false);
    };
    make_change(rt, name, how)?;
    let len = disk.len();
    let refused = disk.write_at(6, b"ghi") == Err(Failed) && disk.cut(1) == Err(Failed);
    let kept = disk.len() == len && disk.obstacle() == Some(Obstacle::Changed);
    clean(rt, name, how)?;
    Ok(refused && kept)
}

#[test]
fn finds_another_length_before_a_write(rt: HostRuntime) -> Result<(), Fail> {
    let name = "grown_file";
    assert!(rt; is_untouched(&rt, rt.alloc(), name, Change::Cut)?);
    assert!(rt; is_untouched(&rt, rt.alloc(), name, Change::Grown)?);
    Ok(())
}

// Tells whether a copy of the same bytes passes for the file, until more is written.
fn is_found_late<R: Files>(rt: &R, alloc: Global, name: &str) -> Result<bool, Fail>
where
    R::File: Lock,
{
    let Some(mut disk) = six(rt, alloc, name)? else {
        return Ok(false);
    };
    make_change(rt, name, Change::Copied)?;
    let passes = disk.sync().is_ok() && disk.write_at(6, b"g").is_ok();
    let found = is_given_up(&mut disk);
    clean(rt, name, Change::Copied)?;
    Ok(passes && found)
}

// Tells whether a piece is found that is longer than what is kept of it, after a cut of its end, of all of it, and of more.
fn is_cut<R: Files>(rt: &R, alloc: Global, name: &str) -> Result<bool, Fail>
where
    R::File: Lock,
{
    let mut disk = FileDisk::at(rt, Name::new(alloc, name)?, true);
    let mut done = disk.write_at(0, &[7; 100]).is_ok() && disk.sync().is_ok();
    for len in [99, 50, 36, 20] {
        done = done && disk.cut(len).is_ok() && disk.sync().is_ok();
    }
    done = done && disk.write_at(20, b"").is_ok() && disk.sync().is_ok();
    let all = done && disk.write_at(0, &[9; 30]).is_ok() && disk.sync().is_ok();
    std::fs::remove_file(rt, name)?;
    Ok(all && disk.obstacle() == None)
}

#[test]
fn goes_on(rt: HostRuntime) -> Result<(), Fail> {
    assert!(rt; is_found_late(&rt, rt.alloc(), "copied_file")?);
    assert!(rt; is_cut(&rt, rt.alloc(), "cut_file")?);
    Ok(())
}
