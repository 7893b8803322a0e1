//! One stripe of the table of callbacks. A descriptor of the stripe is at the place `fd / 32` of its
//! table; what lies in the stripe itself is a few words.
ghost use Rattle.std.specs.Prelude.{◌≡◌, ◌≢◌, ◌<◌, ◌≤◌, ◌+◌, ◌*◌, ◌/◌, ◌%◌, ◌^◌, ◌∷◌, [], ℕ, List, length, IfOk, IfSome, IfNone, Some, None, slice_get, nat_le, is_some, ◌||◌, ◌&&◌, ◌-◌, true, false};
ghost use Rattle.std.specs.List.{list_any};
ghost use Rattle.std.proofs.Common.{set};
ghost use Rattle.stripe_table.specs.Descriptors.{waits_as, waits_at};

use crate::bits::{lowest_bit, without_bit};
use crate::calls::{
    AskReply, CloseReply, DispatchReply, OpenReply, RegisterReply, ReportReply, WithdrawReply,
};
use crate::descriptor::OpenDescriptor;
use crate::firing::shut_all;
use crate::flags::{FlagState, Flags};
use crate::index::KeyIndex;
use crate::load::{Load, Payload};
use reg_keys::{Dir, Dirs, Event, Key, LAST_COUNT, Opening, STRIPE_DESCRIPTORS, STRIPES};
use std::alloc::{AllocError, Global};

/// A stripe: its descriptors, and its flags that haven't been asked to their end.
#[derive(Drop)]
pub struct Stripe<T> {
    stripe: u8,
    /// The count that the stripe began with, which is part of its name.
    first: u64,
    count: u64,
    descriptors: Vec<Option<OpenDescriptor<T>>>,
    flags: Flags,
    index: KeyIndex,
}

impl<T: Load> Stripe<T> {
    ghost use Rattle.reg_keys.specs.declared.entry.Entry.{Entry};
    ghost use Rattle.reg_keys.specs.declared.entry.Entry.TheVariants as Entries;
    ghost use Rattle.stripe_table.specs.declared.descriptor.OpenDescriptor.{OpenDescriptor};
    ghost use Rattle.stripe_table.specs.Calls.{opened, reported, registered, withdrawn, asked, dispatched, closed, kind_of, HandsBack, HandsEventBack};
    ghost use Rattle.stripe_table.specs.Loads.{is_flag};
    ghost use Rattle.stripe_table.specs.Facts.{Facts, event_of, with_event};
    ghost use Rattle.stripe_table.specs.Index.{IsIndexed};
    ghost use Rattle.stripe_table.specs.Represents.{Shows, ShowsPast, Step, Represents};

    /// Makes a stripe, one of 32, that has no openings. Its numbers begin at the count 1.
    pub fn new(alloc: Global, stripe: u8) -> Result<Stripe<T>, AllocError>
        requires { stripe < 32 }
        ensures { IfOk result (λ s. (s.stripe ≡ stripe) × (s.first ≡ 1) × Represents T.tag [] s) }
    {
        Stripe::from_count(alloc, stripe, 1)
    }

    /// Makes a stripe whose numbers begin at a count, so that a test sees their end.
    pub fn from_count(alloc: Global, stripe: u8, count: u64) -> Result<Stripe<T>, AllocError>
        requires stripe { stripe < 32 }
        requires count { (1 ≤ count) × (count < 2 ^ 50) }
        ensures { IfOk result (λ s. (s.stripe ≡ stripe) × (s.first ≡ count) × Represents T.tag [] s) }
    {
        let descriptors = no_descriptors(alloc)?;
        let flags = Flags::new(alloc)?;
        let index = KeyIndex::new(alloc)?;
        Ok(Stripe {
            stripe,
            first: count,
            count,
            descriptors,
            flags,
            index,
        })
    }

    /// The place of a live opening.
    fn place_of(&self, o: &Opening) -> Option<usize>
        ensures there { IfSome result (λ i. (i ≡ o.now.fd / 32) × (d : OpenDescriptor T)
            × (slice_get self.now.descriptors.items i ≡ Some (Some d)) × (d.number ≡ o.now.number)) }
        ensures absent { IfNone result
            ((d : OpenDescriptor T) → slice_get self.now.descriptors.items (o.now.fd / 32) ≡ Some (Some d)
            → d.number ≢ o.now.number) }
    {
        let place = o.fd as usize / STRIPES as usize;
        if place >= self.descriptors.len() {
            return None;
        }
        let Some(descriptor) = &self.descriptors[place] else {
            return None;
        };
        if descriptor.number == o.number {
            Some(place)
        } else {
            None
        }
    }

    /// The number that is drawn next.
    fn next_number(&self) -> u64
        requires { self.now.count < 2 ^ 51 }
        ensures { result ≡ 32 * self.now.count + self.now.stripe }
    {
        self.count * STRIPES + self.stripe as u64
    }

    /// Names an event for an opening where one is due, which is at this place.
    fn name_event(&mut self, o: Opening, place: usize) -> Option<Event>
        requires count { self.old.count < 2 ^ 51 }
        requires there { (d : OpenDescriptor T) × (slice_get self.old.descriptors.items place ≡ Some (Some d))
            × (d.number ≡ o.number) }
        requires of { o.fd ≡ 32 * place + self.old.stripe }
        ensures name { (self.new.stripe ≡ self.old.stripe) × (self.new.first ≡ self.old.first) }
        ensures event { (f : Facts) → Shows T.tag f self.old → result ≡ event_of self.old.stripe f o }
        ensures shows { (f : Facts) → Shows T.tag f self.old → Shows T.tag (with_event f result) self.new }
    {
        let number = self.next_number();
        let Some(descriptor) = &mut self.descriptors[place] else {
            unreachable!()
        };
        if !descriptor.name(number) {
            return None;
        }
        self.count += 1;
        Some(Event::named(o, number))
    }

    /// Opens a descriptor, which is ready in both directions until it is tried.
    pub fn open(&mut self, fd: u16) -> OpenReply
        requires of { fd % 32 ≡ self.old.stripe }
        requires within { fd < 4096 }
        requires fits { (past : List Entry) × ShowsPast T.tag past self.old }
        ensures { (past : List Entry) → ShowsPast T.tag past self.old
            → Step T.tag past (Entries.Open fd (opened result)) self.old self.new }
    {
        let place = fd as usize / STRIPES as usize;
        if let Some(descriptor) = &self.descriptors[place] {
            return OpenReply::Taken(Opening {
                number: descriptor.number,
                fd,
            });
        }
        if self.count >= LAST_COUNT {
            return OpenReply::Spent;
        }
        let number = self.next_number();
        self.count += 1;
        self.descriptors[place] = Some(OpenDescriptor::new(number));
        OpenReply::Opened(Opening { number, fd })
    }

    /// Notes that an opening was reported ready.
    pub fn report(&mut self, o: Opening, dirs: Dirs) -> ReportReply
        requires of { o.fd % 32 ≡ self.old.stripe }
        requires fits { (past : List Entry) × ShowsPast T.tag past self.old }
        ensures { (past : List Entry) → ShowsPast T.tag past self.old
            → Step T.tag past (Entries.Report o dirs (reported result)) self.old self.new }
    {
        let Some(place) = self.place_of(&o) else {
            return ReportReply::Stale;
        };
        if self.count >= LAST_COUNT {
            return ReportReply::Spent;
        }
        let number = self.next_number();
        self.count += 1;
        let Some(descriptor) = &mut self.descriptors[place] else {
            unreachable!()
        };
        descriptor.note(dirs, number);
        ReportReply::Noted(self.name_event(o, place))
    }

    /// Whether a registration finds no place for itself or for its flag.
    fn is_crowded(&self, place: usize, load: &Payload<T>) -> bool
        requires { (d : OpenDescriptor T) × (slice_get self.now.descriptors.items place ≡ Some (Some d)) }
        ensures { (d : OpenDescriptor T) → slice_get self.now.descriptors.items place ≡ Some (Some d) → result
            ≡ (nat_le 4 (length d.waits + d.fired)
            || (is_flag load.now && nat_le 512 (length self.now.flags))) }
    {
        let Some(descriptor) = &self.descriptors[place] else {
            unreachable!()
        };
        descriptor.is_full() || (load.is_flag() && self.flags.is_full())
    }

    /// Registers a load for one direction of an opening. A mark tells which report the caller has
    /// used up. A refusal hands the load back.
    pub fn register(
        &mut self,
        o: Opening,
        dir: Dir,
        mark: Option<u64>,
        load: Payload<T>,
    ) -> RegisterReply<T>
        requires of { o.fd % 32 ≡ self.old.stripe }
        requires fits { (past : List Entry) × ShowsPast T.tag past self.old }
        ensures back { HandsBack load result }
        ensures step { (past : List Entry) → ShowsPast T.tag past self.old
            → Step T.tag past
            (Entries.Register o dir mark (kind_of T.tag load) (registered result)) self.old self.new }
    {
        let Some(place) = self.place_of(&o) else {
            return RegisterReply::Shut(load);
        };
        if self.is_crowded(place, &load) {
            return RegisterReply::Crowded(load);
        }
        if self.count >= LAST_COUNT {
            return RegisterReply::Spent(load);
        }
        let key = self.next_number();
        self.count += 1;
        self.flags.begin(&load, key, o);
        let Some(descriptor) = &mut self.descriptors[place] else {
            unreachable!()
        };
        descriptor.register(key, dir, mark, load);
        self.index.add(key, place);
        let event = self.name_event(o, place);
        RegisterReply::Waits(Key { number: key }, event)
    }

    /// Takes the registrations that an event fires. An event that isn't out fires none.
    pub fn dispatch(&mut self, event: Event) -> DispatchReply<T>
        requires of { event.opening.fd % 32 ≡ self.old.stripe }
        requires fits { (past : List Entry) × ShowsPast T.tag past self.old }
        ensures back { HandsEventBack event result }
        ensures step { (past : List Entry) → ShowsPast T.tag past self.old
            → Step T.tag past (Entries.Dispatch event (dispatched T.tag result)) self.old self.new }
    {
        let o = event.opening();
        let Some(place) = self.place_of(&o) else {
            return DispatchReply::Stale;
        };
        if self.count >= LAST_COUNT {
            return DispatchReply::Spent(event);
        }
        let Some(descriptor) = &mut self.descriptors[place] else {
            unreachable!()
        };
        let list = descriptor.run(event.number(), place, &mut self.flags, &mut self.index);
        let next = self.name_event(o, place);
        DispatchReply::Ran(list, next)
    }

    /// Closes an opening and gives back what waits.
    pub fn close(&mut self, o: Opening) -> CloseReply<T>
        requires of { o.fd % 32 ≡ self.old.stripe }
        requires fits { (past : List Entry) × ShowsPast T.tag past self.old }
        ensures { (past : List Entry) → ShowsPast T.tag past self.old
            → Step T.tag past (Entries.Close o (closed T.tag result)) self.old self.new }
    {
        let Some(place) = self.place_of(&o) else {
            return CloseReply::NotOpen;
        };
        let Some(mut descriptor) = self.descriptors[place].take() else {
            unreachable!()
        };
        let waits = descriptor.waits.take();
        self.index.remove_all(&waits, place);
        CloseReply::Shut(shut_all(waits, &mut self.flags))
    }

    /// The place of the descriptor at which a key waits. It is one of those that the
    /// index lists for the key's class.
    fn holder_of(&self, key: u64) -> Option<usize>
        requires { length self.now.descriptors.items ≡ 128 }
        ensures there { IfSome result
            (λ i. (d : OpenDescriptor T) × (slice_get self.now.descriptors.items i ≡ Some (Some d))
            × (list_any (waits_as key) d.waits ≡ true)) }
        ensures absent { IfNone result (IsIndexed self.now.index self.now.descriptors.items
            → (i : ℕ) (d : OpenDescriptor T) → slice_get self.now.descriptors.items i ≡ Some (Some d)
            → list_any (waits_as key) d.waits ≡ false) }
    {
        if let Some(place) = self.holder_among(key, 0) {
            return Some(place);
        }
        self.holder_among(key, 1)
    }

    /// The same among the first 64 places, or among the others.
    fn holder_among(&self, key: u64, half: usize) -> Option<usize>
        requires many { length self.now.descriptors.items ≡ 128 }
        requires half { half < 2 }
        ensures there { IfSome result
            (λ i. (d : OpenDescriptor T) × (slice_get self.now.descriptors.items i ≡ Some (Some d))
            × (list_any (waits_as key) d.waits ≡ true)) }
        ensures absent { IfNone result
            (IsIndexed self.now.index self.now.descriptors.items → (i : ℕ) (d : OpenDescriptor T)
            → i / 64 ≡ half → slice_get self.now.descriptors.items i ≡ Some (Some d)
            → list_any (waits_as key) d.waits ≡ false) }
    {
        let mut listed = self.index.half(key, half);
        while listed != 0 {
            let bit = lowest_bit(listed);
            let place = half * 64 + bit as usize;
            if has_key(&self.descriptors[place], key) {
                return Some(place);
            }
            listed = without_bit(listed, bit);
        }
        None
    }

    /// Takes back a registration that waits.
    pub fn withdraw(&mut self, key: Key) -> WithdrawReply<T>
        requires { (past : List Entry) × ShowsPast T.tag past self.old }
        ensures { (past : List Entry) → ShowsPast T.tag past self.old
            → Step T.tag past (Entries.Withdraw key (withdrawn T.tag result)) self.old self.new }
    {
        let Some(place) = self.holder_of(key.number) else {
            return WithdrawReply::Gone;
        };
        let Some(descriptor) = &mut self.descriptors[place] else {
            unreachable!()
        };
        let mut taken = descriptor.take_key(key.number);
        self.index.take_out(&taken, &descriptor.waits, place);
        let Some(registration) = taken.pop_first() else {
            unreachable!()
        };
        self.flags.end(&registration.load, key.number);
        WithdrawReply::Back(registration.load.into_job())
    }

    /// Gives the place of a flag free that ran and was asked for, if its opening is live.
    fn free_place(&mut self, o: &Opening)
        requires { (d : OpenDescriptor T)
            → slice_get self.old.descriptors.items (o.now.fd / 32) ≡ Some (Some d)
            → d.number ≡ o.now.number → 0 < d.fired }
        ensures same { (self.new.stripe ≡ self.old.stripe) × (self.new.first ≡ self.old.first)
            × (self.new.count ≡ self.old.count) × (self.new.flags ≡ self.old.flags)
            × (self.new.index ≡ self.old.index) }
        ensures absent { ((d : OpenDescriptor T)
            → slice_get self.old.descriptors.items (o.now.fd / 32) ≡ Some (Some d) → d.number ≢ o.now.number)
            → self.new.descriptors.items ≡ self.old.descriptors.items }
        ensures there { (d : OpenDescriptor T)
            → slice_get self.old.descriptors.items (o.now.fd / 32) ≡ Some (Some d) → d.number ≡ o.now.number
            → self.new.descriptors.items
            ≡ set self.old.descriptors.items (o.now.fd / 32) (Some (record d { fired = d.fired - 1 })) }
    {
        let Some(place) = self.place_of(o) else {
            return;
        };
        let Some(descriptor) = &mut self.descriptors[place] else {
            unreachable!()
        };
        descriptor.fired -= 1;
    }

    /// Asks how a flag came out. It is forgotten once it is told.
    pub fn ask(&mut self, key: Key) -> AskReply
        requires { (past : List Entry) × ShowsPast T.tag past self.old }
        ensures { (past : List Entry) → ShowsPast T.tag past self.old
            → Step T.tag past (Entries.Ask key (asked result)) self.old self.new }
    {
        let Some(flag) = self.flags.ask(key.number) else {
            return AskReply::Unknown;
        };
        match flag.state {
            FlagState::Waiting => AskReply::Waiting,
            FlagState::Ran(dir, marks) => {
                self.free_place(&flag.opening);
                AskReply::Ran(dir, marks)
            }
            FlagState::Closed => AskReply::Closed,
        }
    }
}

/// Whether a key waits at a descriptor.
fn has_key<T: Drop>(kept: &Option<OpenDescriptor<T>>, key: u64) -> bool
    ensures { result ≡ waits_at key kept.now }
{
    match kept {
        Some(descriptor) => descriptor.has_key(key),
        None => false,
    }
}

/// The table of a stripe's 128 descriptors, none of which is open.
fn no_descriptors<T: Drop>(alloc: Global) -> Result<Vec<Option<OpenDescriptor<T>>>, AllocError>
    ensures { IfOk result (λ v. (length v.items ≡ 128) × (list_any is_some v.items ≡ false)) }
{
    let mut table = Vec::with_capacity(alloc, STRIPE_DESCRIPTORS as usize)?;
    let mut made: u64 = 0;
    while made < STRIPE_DESCRIPTORS {
        table.push(None)?;
        made += 1;
    }
    Ok(table)
}
