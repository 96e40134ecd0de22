// The changes of a disk in memory.
ghost use Rattle.std.specs.Prelude.{◌≡◌, ◌↔◌, ◌<◌, ◌≤◌, ◌+◌, ◌++◌, [], ◌∷◌, length, IsTrue, IfOk};
ghost use Rattle.base_device.specs.Changes.{wrote, cut_to, synced};

use base_num::Memory;
use std::alloc::Global;
use std::marker::Model;

// A change; the bytes of a piece stand beside the entries.
#[derive(Clone, Copy)]
pub(crate) enum HistoryEntry {
    Wrote { at: usize, len: usize },
    CutTo { len: usize },
    Synced,
}

// All changes in order, in memory that is taken when the history is made.
#[derive(Drop)]
pub(crate) struct History {
    entries: Vec<HistoryEntry>,
    pieces: Vec<u8>,
    room: usize,
    changes: usize,
}

impl Model for History {
    ghost use Rattle.std.specs.Prelude.{◌≡◌, ◌≤◌, vec_len, vec_capacity};
    ghost use Rattle.base_device.specs.Histories.{MemoryHistory, logged, pieces_length};

    ghost Value = { MemoryHistory };

    ghost view = { λ h. record {
      log = logged h.entries.items h.pieces.items;
      taken = vec_len h.pieces;
      room = h.room;
      changes = h.changes;
    } };

    ghost invariant = { λ h. (pieces_length h.entries.items ≡ vec_len h.pieces)
        × (vec_len h.pieces ≤ h.room) × (h.room ≤ vec_capacity h.pieces)
        × (vec_len h.entries ≤ h.changes) × (h.changes ≤ vec_capacity h.entries) };
}

impl History {
    // An empty history with memory for so many bytes of pieces and so many changes.
    pub(crate) fn new(alloc: Global, room: usize, changes: usize) -> Result<History, Memory>
        ensures { IfOk result (λ h. h ≡ record {
          log = [];
          taken = 0;
          room = room;
          changes = changes;
        }) }
    {
        Ok(History {
            entries: Vec::with_capacity(alloc, changes)?,
            pieces: Vec::with_capacity(alloc, room)?,
            room,
            changes,
        })
    }

    #[tactic(auto, using(crate::proofs::Histories::logged_length))]
    pub(crate) fn is_full(&self) -> bool
        ensures { IsTrue result ↔ (self.now.changes ≤ length self.now.log) }
    {
        self.changes <= self.entries.len()
    }

    pub(crate) fn room(&self) -> usize
        ensures { result ≡ self.now.room }
    {
        self.room
    }

    pub(crate) fn changes(&self) -> usize
        ensures { result ≡ self.now.changes }
    {
        self.changes
    }

    // Tells whether a piece of this length would pass the room.
    pub(crate) fn lacks_room(&self, len: usize) -> bool
        ensures { IsTrue result ↔ (self.now.room < self.now.taken + len) }
    {
        self.room - self.pieces.len() < len
    }

    #[tactic(auto, using(crate::proofs::Histories::logged_length, crate::proofs::Histories::pieces_length_push, crate::proofs::Histories::logged_wrote))]
    pub(crate) fn add_write(&mut self, at: usize, piece: &[u8])
        requires change { length self.old.log < self.old.changes }
        requires room { self.old.taken + length piece.now ≤ self.old.room }
        ensures { self.new ≡ record self.old {
          log = self.old.log ++ wrote at piece.now ∷ [];
          taken = self.old.taken + length piece.now;
        } }
    {
        let len = piece.len();
        let (Ok(()), Ok(())) = (
            self.entries.push(HistoryEntry::Wrote { at, len }),
            self.pieces.extend_from_slice(piece),
        ) else {
            unreachable!();
        };
    }

    #[tactic(auto, using(crate::proofs::Histories::logged_length, crate::proofs::Histories::pieces_length_push, crate::proofs::Histories::logged_cut))]
    pub(crate) fn add_cut(&mut self, len: usize)
        requires change { length self.old.log < self.old.changes }
        ensures { self.new ≡ record self.old { log = self.old.log ++ cut_to len ∷ [] } }
    {
        let Ok(()) = self.entries.push(HistoryEntry::CutTo { len }) else {
            unreachable!();
        };
    }

    #[tactic(auto, using(crate::proofs::Histories::logged_length, crate::proofs::Histories::pieces_length_push, crate::proofs::Histories::logged_sync))]
    pub(crate) fn add_sync(&mut self)
        requires change { length self.old.log < self.old.changes }
        ensures { self.new ≡ record self.old { log = self.old.log ++ synced ∷ [] } }
    {
        let Ok(()) = self.entries.push(HistoryEntry::Synced) else {
            unreachable!();
        };
    }
}
