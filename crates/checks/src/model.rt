// What a run knows beside the reference tree: document 01's plain list with its latest changes, the moments of each lookup and of each search
// for the next ticket, and the write in hand.
ghost use Rattle.std.specs.Prelude.{◌<◌};

use crate::draws::{Reading, TICKETS};
use reference::DeleteForm;

// how many of the list's latest changes are kept; the store of a list is up to 1,019 at once
const LOGGED: usize = 4096;

// how many records a lookup may see
const MEMORY: usize = 24;

// A ticket of the plain list: its record, if it is there, and how many changes the list had made once it last came or went. Of a list in hand
// (document 02, C-24): its record there, if it is in it.
#[derive(Clone, Copy)]
struct Ticket {
    record: Option<u64>,
    changed: u32,
    coming: Option<u64>,
}

const NO_TICKET: Ticket = Ticket {
    record: None,
    changed: 0,
    coming: None,
};

// A change of the list: a ticket, and the record that it had before or has since. That a ticket comes is a change, and that it goes; a record that
// takes another's place is two, one for each record.
#[derive(Clone, Copy, PartialEq, Eq)]
struct Change {
    ticket: u32,
    record: u64,
}

const NO_CHANGE: Change = Change {
    ticket: 0,
    record: 0,
};

// The records that a lookup saw. kept: an array with its length beside it, since slots are Copy, and an ArrayVec is not.
#[derive(Clone, Copy)]
struct Seen {
    records: [u64; MEMORY],
    many: usize,
}

const NONE_SEEN: Seen = Seen {
    records: [0; MEMORY],
    many: 0,
};

impl Seen {
    fn records(&self) -> &[u64] {
        &self.records[..self.many.min(MEMORY)]
    }

    // Adds a record; false if there is no room. One that was seen last is there.
    fn remember(&mut self, v: u64) -> bool {
        if self.records().last() == Some(&v) {
            return true;
        }
        let n = self.many;
        if n < MEMORY {
            self.records[n] = v;
            self.many = n + 1;
        }
        n < MEMORY
    }
}

// What a slot reads: the wanted ticket, or the one given to a search for the next; how many changes the list had made at its begin, whether it
// is before its first turn; and of a lookup's moments whether the list lacked the ticket, and the records that it had there.
#[derive(Clone, Copy)]
struct Read {
    kind: Reading,
    wanted: u32,
    since: u32,
    unturned: bool,
    lacked: bool,
    seen: Seen,
}

impl Read {
    // A moment of a lookup: what the plain list says of its ticket now. Of a search the list's changes tell the moments: it must be that those
    // since its begin are all among the latest.
    fn observe(&mut self, tickets: &[Ticket], changes: u32) -> bool {
        if self.kind == Reading::Search {
            return changes.saturating_sub(self.since) as usize <= LOGGED;
        }
        match tickets
            .get(self.wanted as usize)
            .and_then(|ticket| ticket.record)
        {
            Some(v) => self.seen.remember(v),
            None => {
                self.lacked = true;
                true
            }
        }
    }
}

#[derive(Clone, Copy)]
struct Slot {
    read: Option<Read>,
    awaited: bool,
}

const IDLE: Slot = Slot {
    read: None,
    awaited: false,
};

// A write: an insert of a ticket with a record, its key held or not, a delete by its form and ticket, or a list by the number of its tickets.
#[derive(Clone, Copy, PartialEq, Eq)]
pub enum Write {
    Insert(u32, u64),
    Replace(u32, u64),
    Delete(DeleteForm, u32),
    List(u32),
}

impl Write {
    // Answers a write's place among the rows of accepted writes, and of finished ones.
    pub fn place(self) -> usize
        ensures { result < 4 }
    {
        match self {
            Write::List(_) => 0,
            Write::Insert(_, _) => 1,
            Write::Delete(_, _) => 2,
            Write::Replace(_, _) => 3,
        }
    }

    // the store at which the list changes
    fn list_store(self) -> u32 {
        match self {
            Write::Delete(DeleteForm::NextIsChild, _) => 2,
            _ => 1,
        }
    }
}

// The write in hand, its stores in all and those made.
#[derive(Clone, Copy)]
struct InHand {
    write: Write,
    stores: u32,
    made: u32,
}

#[derive(Drop)]
pub struct Model {
    tickets: [Ticket; TICKETS as usize],
    slots: [Slot; numbers::SLOTS],
    // the latest changes of the list, in a ring by their numbers
    log: [Change; LOGGED],
    hand: Option<InHand>,
    // how many tickets the list has, and how many changes it has made
    held: u32,
    changes: u32,
}

// Answers whether two records differ in the high word alone.
pub fn differ_high(v: u64, w: u64) -> bool {
    (v != w) & (v % numbers::WORD_LIMIT == w % numbers::WORD_LIMIT)
}

impl Model {
    // Answers a run's model before its first call: no ticket, no reading slot, no write in hand.
    pub fn new() -> Model {
        Model {
            tickets: [NO_TICKET; TICKETS as usize],
            slots: [IDLE; numbers::SLOTS],
            log: [NO_CHANGE; LOGGED],
            hand: None,
            held: 0,
            changes: 0,
        }
    }

    // Makes it that before a run's first call.
    pub fn clear(&mut self) {
        *self = Model::new();
    }

    // Answers how many tickets the plain list has.
    pub fn held(&self) -> u32 {
        self.held
    }

    // Answers whether the list never had a ticket.
    pub fn unused(&self) -> bool {
        self.changes == 0
    }

    fn ticket(&self, t: u32) -> Ticket {
        self.tickets.get(t as usize).copied().unwrap_or(NO_TICKET)
    }

    // Answers the record of a ticket in the plain list, if it is there.
    pub fn list_record(&self, t: u32) -> Option<u64> {
        self.ticket(t).record
    }

    // Answers whether the list has a ticket with another record now.
    pub fn has_other(&self, t: u32, v: u64) -> bool {
        self.list_record(t).is_some_and(|w| w != v)
    }

    // Notes a change of the list: this ticket had this record until now, or has it from now on.
    fn note_change(&mut self, ticket: u32, record: u64) {
        self.log[self.changes as usize % LOGGED] = Change { ticket, record };
        self.changes = self.changes.saturating_add(1);
    }

    // A ticket comes with a record, or goes.
    fn come_or_go(&mut self, t: u32, v: u64, record: Option<u64>) {
        self.note_change(t, v);
        if let Some(ticket) = self.tickets.get_mut(t as usize) {
            ticket.record = record;
            ticket.changed = self.changes;
        }
    }

    // puts a ticket in, in place of any there with its key
    fn put_in(&mut self, t: u32, v: u64) {
        match self.list_record(t) {
            Some(old) => self.replace(t, old, v),
            None => {
                self.held = self.held.saturating_add(1);
                self.come_or_go(t, v, Some(v));
            }
        }
    }

    // A ticket stays, with a new record.
    fn replace(&mut self, t: u32, old: u64, v: u64) {
        self.note_change(t, old);
        self.note_change(t, v);
        if let Some(ticket) = self.tickets.get_mut(t as usize) {
            ticket.record = Some(v);
        }
    }

    fn take_out(&mut self, t: u32) {
        if let Some(v) = self.list_record(t) {
            self.held = self.held.saturating_sub(1);
            self.come_or_go(t, v, None);
        }
    }

    // Notes that a ticket is in the list in hand, with this record.
    pub fn expect_ticket(&mut self, t: u32, v: u64) {
        if let Some(ticket) = self.tickets.get_mut(t as usize) {
            ticket.coming = Some(v);
        }
    }

    // all tickets of the list in hand come
    fn put_in_list(&mut self) {
        for t in 0..TICKETS {
            if let Some(v) = self.tickets[t as usize].coming.take() {
                self.put_in(t, v);
            }
        }
    }

    fn read(&self, s: u32) -> Option<&Read> {
        self.slots.get(s as usize)?.read.as_ref()
    }

    // Answers whether a slot is reading.
    pub fn reading(&self, s: u32) -> bool {
        self.read(s).is_some()
    }

    // Answers what a slot reads, a lookup or a search for the next ticket.
    pub fn kind(&self, s: u32) -> Option<Reading> {
        self.read(s).map(|read| read.kind)
    }

    // Begins a slot's lookup of a ticket, or its search for the next one after it.
    pub fn begin(&mut self, s: u32, kind: Reading, wanted: u32) {
        let since = self.changes;
        if let Some(slot) = self.slots.get_mut(s as usize) {
            slot.read = Some(Read {
                kind,
                wanted,
                since,
                unturned: true,
                lacked: false,
                seen: NONE_SEEN,
            });
        }
    }

    // Notes that a slot has made a turn.
    pub fn note_turn(&mut self, s: u32) {
        if let Some(slot) = self.slots.get_mut(s as usize) {
            if let Some(read) = &mut slot.read {
                read.unturned = false;
            }
        }
    }

    // Ends a slot's lookup or search; it is no longer awaited.
    pub fn end_reading(&mut self, s: u32) {
        if let Some(slot) = self.slots.get_mut(s as usize) {
            *slot = IDLE;
        }
    }

    // Notes a moment of all lookups and searches; answers false if one has no room for a record or a change.
    pub fn observe(&mut self) -> bool {
        let mut ok = true;
        for slot in self.slots.iter_mut() {
            if let Some(read) = &mut slot.read {
                ok &= read.observe(&self.tickets, self.changes);
            }
        }
        ok
    }

    // Answers whether the list had a slot's ticket with this record at one of the lookup's moments.
    pub fn was_listed(&self, s: u32, v: u64) -> bool {
        self.read(s)
            .is_some_and(|read| read.seen.records().contains(&v))
    }

    // Answers whether the list lacked a slot's ticket at one of the lookup's moments.
    pub fn was_lacking(&self, s: u32) -> bool {
        self.read(s).is_some_and(|read| read.lacked)
    }

    // the record of a slot's ticket now, if the list has it
    fn wanted_record(&self, s: u32) -> Option<u64> {
        self.list_record(self.read(s)?.wanted)
    }

    // Answers whether the list has a slot's ticket with this record now.
    pub fn is_listed(&self, s: u32, v: u64) -> bool {
        self.wanted_record(s) == Some(v)
    }

    // Answers whether the list has a slot's ticket with another record now.
    pub fn is_outdated(&self, s: u32, v: u64) -> bool {
        self.wanted_record(s).is_some_and(|w| w != v)
    }

    // Answers whether the list lacks a slot's ticket now.
    pub fn is_lacking(&self, s: u32) -> bool {
        self.wanted_record(s).is_none()
    }

    // whether the list had this ticket with this record at a moment since it had made so many changes: it has it now, or a change since was of it
    fn was_held(&self, ticket: u32, record: u64, since: u32) -> bool {
        let change = Change { ticket, record };
        (self.list_record(ticket) == Some(record))
            || (since..self.changes).any(|n| self.log[n as usize % LOGGED] == change)
    }

    // the first ticket after t that the list has, and had without a break since it had made so many changes
    fn first_after(&self, t: u32, since: u32) -> Option<u32> {
        (t.saturating_add(1)..TICKETS).find(|n| {
            let ticket = self.ticket(*n);
            ticket.record.is_some() & (ticket.changed <= since)
        })
    }

    // Answers the first ticket from t on, round the tickets, that the list has.
    pub fn listed_from(&self, t: u32) -> Option<u32> {
        (t..TICKETS)
            .chain(0..TICKETS)
            .find(|n| self.list_record(*n).is_some())
    }

    // the first ticket after the one given to a search that the list had at all its moments
    fn first_throughout(&self, s: u32) -> Option<u32> {
        let read = self.read(s)?;
        self.first_after(read.wanted, read.since)
    }

    fn first_now(&self, s: u32) -> Option<u32> {
        self.first_after(self.read(s)?.wanted, self.changes)
    }

    // Answers whether a search may answer this ticket with this record: it comes after the given one, the list had it at one of the search's
    // moments, and none between at all of them.
    pub fn was_next(&self, s: u32, t: u32, v: u64) -> bool {
        let first = self.first_throughout(s);
        self.read(s)
            .is_some_and(|read| (read.wanted < t) & self.was_held(t, v, read.since))
            & first.is_none_or(|n| t <= n)
    }

    // Answers whether a search may answer none: the list had no ticket after the given one at all of the search's moments.
    pub fn was_none(&self, s: u32) -> bool {
        self.first_throughout(s).is_none()
    }

    // Answers whether this ticket with this record is the next one now.
    pub fn is_next(&self, s: u32, t: u32, v: u64) -> bool {
        (self.first_now(s) == Some(t)) & (self.list_record(t) == Some(v))
    }

    // Answers whether there is no next ticket now.
    pub fn is_none(&self, s: u32) -> bool {
        self.first_now(s).is_none()
    }

    // the slots of which this holds, a bit each
    fn slots_where<F: Fn(&Slot) -> bool>(&self, holds: F) -> u32
        requires { F.IsAlwaysCallable holds }
    {
        let mut bits = 0;
        for (s, slot) in self.slots.iter().enumerate() {
            bits |= u32::from(holds(slot)) << s;
        }
        bits
    }

    // Answers the awaited slots, a bit each.
    pub fn awaited(&self) -> u32 {
        self.slots_where(|slot| slot.awaited)
    }

    // Answers the reading slots, a bit each.
    pub fn reading_slots(&self) -> u32 {
        self.slots_where(|slot| slot.read.is_some())
    }

    // Answers the reading slots before their first turn, a bit each.
    pub fn unturned_slots(&self) -> u32 {
        self.slots_where(|slot| slot.read.as_ref().is_some_and(|read| read.unturned))
    }

    fn await_readers(&mut self) {
        for slot in self.slots.iter_mut() {
            slot.awaited = slot.read.is_some();
        }
    }

    // Answers the write in hand.
    pub fn write_in_hand(&self) -> Option<Write> {
        self.hand.map(|hand| hand.write)
    }

    // Answers how many tickets the list in hand has.
    pub fn list_in_hand(&self) -> Option<u32> {
        match self.write_in_hand() {
            Some(Write::List(m)) => Some(m),
            _ => None,
        }
    }

    // Takes a write in hand, which takes so many stores.
    pub fn take_in_hand(&mut self, write: Write, stores: u32) {
        self.hand = Some(InHand {
            write,
            stores,
            made: 0,
        });
    }

    // Answers whether the next store is the write's last.
    pub fn last_is_next(&self) -> bool {
        self.hand
            .is_some_and(|hand| hand.made.saturating_add(1) == hand.stores)
    }

    fn change_list(&mut self, write: Write) {
        match write {
            Write::List(_) => self.put_in_list(),
            Write::Delete(_, t) => self.take_out(t),
            Write::Insert(t, v) | Write::Replace(t, v) => self.put_in(t, v),
        }
    }

    // Notes a store of the write in hand: at the list store the list changes; the first store of a delete's third form publishes the successor's
    // copy, and the reading slots are awaited.
    pub fn store_made(&mut self) {
        let Some(mut hand) = self.hand else {
            return;
        };
        hand.made = hand.made.saturating_add(1);
        self.hand = Some(hand);
        if hand.made == hand.write.list_store() {
            self.change_list(hand.write);
        }
        if (hand.made == 1) & matches!(hand.write, Write::Delete(DeleteForm::Other, _)) {
            self.await_readers();
        }
    }

    // Lets go of the write in hand.
    pub fn finish_write(&mut self) {
        self.hand = None;
    }
}
