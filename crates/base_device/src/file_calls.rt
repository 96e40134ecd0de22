// The calls of an open file.
ghost use Rattle.std.specs.Prelude.{◌≡◌, ◌↔◌, ◌≤◌, ◌+◌, ◌^◌, ℕ, List, true, length, take, drop, is_some, option_map, IfOk, IfSome, OnOk};
ghost use Rattle.base_device.specs.Disks.{Torn, Cut, Follows, Only, Elapses, Stays, written};
ghost use Rattle.base_device.specs.FileEnd.{IsKept};

use crate::file_end::{Kept, MOST};
use crate::file_like::FileLike;
use crate::obstacle::{Obstacle, Refused};

/// An open file, with what its own writes and cuts have led to. That is None where the file is only read, and from the first
/// write, cut or sync on that failed: each later one fails too, since a system may drop what it could not write, and say so once.
#[derive(Drop)]
pub(crate) struct FileCalls<F> {
    pub(crate) file: F,
    kept: Option<Kept>,
}

impl<F: FileLike + Drop> FileCalls<F> {
    /// A file that is only read.
    pub(crate) fn read_only(file: F) -> FileCalls<F>
        ensures { result.file ≡ file }
    {
        FileCalls { file, kept: None }
    }

    /// A file that is written. What another run has left pending is synced before anything of it is read.
    pub(crate) fn writing(mut file: F) -> Result<FileCalls<F>, Refused>
        ensures reads { IfOk result (λ calls. (F.store calls.file).reads ≡ (F.store file).reads) }
        ensures durable { IfOk result (λ calls. IfSome (F.store file).reads (λ bytes. Only bytes (F.store calls.file))) }
    {
        file.sync_whole()?;
        let len = file.size()?;
        Ok(FileCalls {
            file,
            kept: Some(Kept::new(len)),
        })
    }

    /// The length of the file.
    pub(crate) fn measured(&mut self) -> Result<u64, Refused>
        ensures value { IfOk result (λ n. IfSome (F.store self.old.file).reads (λ bytes. n ≡ length bytes)) }
        ensures stays { Stays (F.store self.old.file) (F.store self.new.file) }
    {
        Ok(self.file.size()?)
    }

    /// Fills the buffer with the bytes from this place on. Refused where the file ends before the buffer is full.
    pub(crate) fn fetched(&mut self, from: u64, into: &mut [u8]) -> Result<(), Refused>
        ensures value { OnOk result (IfSome (F.store self.old.file).reads (λ bytes.
            into.new ≡ take (length into.old) (drop from bytes))) }
        ensures stays { Stays (F.store self.old.file) (F.store self.new.file) }
    {
        self.file.go_to(from)?;
        self.file.fill(into)?;
        Ok(())
    }

    /// Writes the whole piece from this place on.
    pub(crate) fn put(&mut self, at: u64, piece: &[u8]) -> Result<(), Refused>
        requires place { IfSome (F.store self.old.file).reads (λ bytes. at ≤ length bytes) }
        requires end { at + length piece.now ≤ 2 ^ 62 }
        ensures written { OnOk result ((F.store self.new.file).reads
            ≡ option_map (λ bytes. written bytes at piece.now) (F.store self.old.file).reads) }
        ensures observable { is_some (F.store self.new.file).reads ≡ is_some (F.store self.old.file).reads }
        ensures crash { Follows (Torn at (length piece.now)) (F.store self.old.file) (F.store self.new.file) }
        ensures time { Elapses (F.store self.old.file) (F.store self.new.file) }
    {
        let kept = self.take_kept()?;
        self.file.go_to(at)?;
        self.file.write_whole(piece)?;
        self.kept = Some(kept.written(at, piece));
        Ok(())
    }

    /// Cuts the file to this length.
    pub(crate) fn resized(&mut self, len: u64) -> Result<(), Refused>
        requires place { IfSome (F.store self.old.file).reads (λ bytes. len ≤ length bytes) }
        requires end { len ≤ 2 ^ 62 }
        ensures cut { OnOk result ((F.store self.new.file).reads
            ≡ option_map (take len) (F.store self.old.file).reads) }
        ensures observable { is_some (F.store self.new.file).reads ≡ is_some (F.store self.old.file).reads }
        ensures crash { Follows (Cut len) (F.store self.old.file) (F.store self.new.file) }
        ensures time { Elapses (F.store self.old.file) (F.store self.new.file) }
    {
        let kept = self.take_kept()?;
        self.file.resize(len)?;
        self.kept = Some(kept.cut(len));
        Ok(())
    }

    /// Syncs the file, and gives what has to be found in it. It takes no other change until that is handed back.
    pub(crate) fn synced(&mut self) -> Result<Kept, Refused>
        ensures durable { OnOk result (IfSome (F.store self.old.file).reads (λ bytes. Only bytes (F.store self.new.file))) }
        ensures reads { (F.store self.new.file).reads ≡ (F.store self.old.file).reads }
        ensures crash { (c : List ℕ) → (F.store self.new.file).images c → (F.store self.old.file).images c }
        ensures time { Elapses (F.store self.old.file) (F.store self.new.file) }
    {
        let kept = self.take_kept()?;
        self.file.sync_whole()?;
        Ok(kept)
    }

    /// Hands back what was found, so that the file takes changes again.
    pub(crate) fn go_on(&mut self, kept: Kept)
        ensures { self.new.file ≡ self.old.file }
    {
        self.kept = Some(kept);
    }

    /// Tells whether the file has this length, and this end of a piece where it was written.
    pub(crate) fn holds(&mut self, kept: &Kept) -> Result<bool, Refused>
        ensures value { IfOk result (λ found. IfSome (F.store self.old.file).reads (λ bytes. (found ≡ true) ↔ IsKept kept.now bytes)) }
        ensures stays { Stays (F.store self.old.file) (F.store self.new.file) }
    {
        if self.measured()? != kept.len() {
            return Ok(false);
        }
        let mut found = [0; MOST];
        let last = kept.last();
        let into = &mut found[..last.len()];
        self.fetched(kept.at(), into)?;
        Ok(&*into == last)
    }

    // Takes what the file's own calls have led to. Refused where the file has another length by now.
    fn take_kept(&mut self) -> Result<Kept, Refused>
        ensures stays { Stays (F.store self.old.file) (F.store self.new.file) }
    {
        let Some(kept) = self.kept.take() else {
            return Err(Refused(None));
        };
        if self.measured()? != kept.len() {
            return Err(Refused(Some(Obstacle::Changed)));
        }
        Ok(kept)
    }
}
