ghost use Rattle.std.specs.Prelude.{◌≡◌, ◌==◌, ℕ, ◌+◌, ◌≤◌, List, [], ◌∷◌, ◌++◌, Option, None, false, length, max, IfOk, OnOk, OnErr};
ghost use Rattle.std.specs.List.{list_any};
ghost use Rattle.indexmap.specs.IndexMap.{spare};
ghost use Rattle.pgn_listening.specs.Listening.{listed, holds, AreOnce, AreThere};

use crate::channel_bits::ChannelBits;
use indexmap::IndexMap;
use pgn_base::{Action, Actions, Copied, InPlace, NAME_BYTES_MAX, Name, Names, Seed};
use std::alloc::{AllocError, Global};
use std::marker::Model;

/// The channels that a session listens to, in order of listening. Contracts see them, and how many more may be put in without
/// memory. To listen and to unlisten take the same time, however many there are: places that were left are closed up where they
/// come to be more than half.
pub struct ListenSet {
    // The channels in order. A place is empty where its channel was left.
    places: Vec<Option<Name>>,
    // Where each channel stands.
    index: IndexMap<Key, usize, Seed>,
    bits: ChannelBits,
    room: usize,
}

// Written out, so that this crate proves it once for all that drop one.
impl Drop for ListenSet {
    fn drop(self) {
        let ListenSet {
            places: _,
            index: _,
            bits: _,
            room: _,
        } = self;
    }
}

type Key = InPlace<NAME_BYTES_MAX>;

/// Up to so many places are looked through, which is faster than a hash.
const FEW: usize = 4;

impl Model for ListenSet {
    ghost use Rattle.std.specs.Prelude.{vec_capacity};
    ghost use Rattle.indexmap.specs.IndexMap.{spare};
    ghost use Rattle.pgn_listening.specs.Listening.{Listening, IsIndexed, listed};
    ghost use Rattle.pgn_listening.specs.Bits.{AreBits};

    ghost Value = { Listening };

    ghost view = { λ set. record { channels = listed set.places.items; room = set.room } };

    ghost invariant = { λ set. IsIndexed set.places.items (vec_capacity set.places) set.index.entries (spare set.index) set.room × AreBits (listed set.places.items) set.bits };
}

impl ListenSet {
    ghost use Rattle.pgn_base.specs.Names.{has_name};
    ghost use Rattle.pgn_base.specs.Channels.{applied, after_action};
    ghost use Rattle.pgn_base.specs.Interest.{interest};

    /// The empty set, whose hashes are made with this seed. It takes no memory.
    pub fn new(alloc: Global, seed: Seed) -> ListenSet
        ensures { result ≡ record { channels = []; room = 0 } }
    {
        ListenSet {
            places: Vec::new(alloc),
            index: IndexMap::with_hasher(alloc, seed),
            bits: ChannelBits::new(),
            room: 0,
        }
    }

    /// Makes room for at least so many more channels. A refusal changes nothing.
    pub fn reserve(&mut self, additional: usize) -> Result<(), AllocError>
        ensures channels { self.new.channels ≡ self.old.channels }
        ensures ok { OnOk result (self.new.room ≡ max self.old.room additional) }
        ensures err { OnErr result (self.new ≡ self.old) }
    {
        if additional <= self.room {
            return Ok(());
        }
        self.places.reserve(additional)?;
        self.index.reserve(additional)?;
        self.room = additional;
        Ok(())
    }

    /// Does these actions to the set, in order. It takes no memory, so that there must be room for a channel an action.
    pub fn apply(&mut self, actions: Actions)
        requires room { length actions ≤ self.old.room }
        ensures channels { self.new.channels ≡ applied self.old.channels actions }
        ensures room { self.old.room ≤ self.new.room + length actions }
    {
        for action in actions.into_items() {
            self.act(action);
        }
    }

    fn act(&mut self, action: Action)
        requires room { 1 ≤ self.old.room }
        ensures channels { self.new.channels ≡ after_action self.old.channels action }
        ensures room { self.old.room ≤ self.new.room + 1 }
    {
        let is_put_in = matches!(&action, Action::Listen(_));
        match action.into_channel() {
            Some(name) if is_put_in => self.listen(name),
            Some(name) => self.unlisten(&name),
            None => self.unlisten_all(),
        }
    }

    fn listen(&mut self, name: Name)
        requires room { 1 ≤ self.old.room }
        ensures channels { self.new.channels ≡ after_action self.old.channels (Action.Listen name) }
        ensures room { self.old.room ≤ self.new.room + 1 }
    {
        if !self.contains(name.as_bytes()) {
            self.add(name);
        }
    }

    // Puts a channel at the end.
    fn add(&mut self, name: Name)
        requires absent { has_name self.old.channels name ≡ false }
        requires room { 1 ≤ self.old.room }
        ensures channels { self.new.channels ≡ self.old.channels ++ name ∷ [] }
        ensures room { self.new.room + 1 ≡ self.old.room }
    {
        let at = self.places.len();
        self.index.insert(Key::new(name.as_bytes()), at).unwrap();
        self.bits.put(name.as_bytes());
        self.places.push(Some(name)).unwrap();
        self.room -= 1;
    }

    fn unlisten(&mut self, name: &Name)
        ensures channels { self.new.channels
            ≡ after_action self.old.channels (Action.Unlisten name.now) }
        ensures room { self.old.room ≤ self.new.room + 1 }
    {
        self.leave(name);
        if self.index.len() < self.places.len() / 2 {
            self.close_up();
        }
    }

    // Takes a channel out, and leaves its place empty.
    fn leave(&mut self, name: &Name)
        ensures channels { self.new.channels
            ≡ after_action self.old.channels (Action.Unlisten name.now) }
        ensures room { self.new.room ≡ self.old.room }
    {
        if let Some(at) = self.index.swap_remove(&Key::new(name.as_bytes())) {
            empty(&mut self.places[at]);
            self.bits.take_out(name.as_bytes());
        }
    }

    // Closes the empty places up.
    fn close_up(&mut self)
        ensures { self.new ≡ self.old }
    {
        self.places.retain(|place| place.is_some());
        // In the time of what goes. `clear` would go over all the room that there is.
        self.index.truncate(0);
        put_all(&mut self.index, &self.places);
    }

    fn unlisten_all(&mut self)
        ensures channels { self.new.channels ≡ after_action self.old.channels Action.UnlistenAll }
        ensures room { self.old.room ≤ self.new.room + 1 }
    {
        self.index.truncate(0);
        self.places.clear();
        self.bits = ChannelBits::new();
    }

    pub fn contains(&self, channel: &[u8]) -> bool
        ensures { result ≡ has_name self.now.channels channel.now }
    {
        if self.places.len() > FEW && channel.len() <= NAME_BYTES_MAX {
            return self.index.contains_key(&Key::new(channel));
        }
        is_in(&self.places, channel)
    }

    /// Which channels there are: a bit for each of them. It costs the same however many there are, and takes no memory.
    pub fn interest(&self) -> u64
        ensures { result ≡ interest self.now.channels }
    {
        self.bits.word()
    }

    pub fn is_empty(&self) -> bool
        ensures { result ≡ (length self.now.channels == 0) }
    {
        self.index.is_empty()
    }

    /// What its hashes are made with.
    pub fn seed(&self) -> Seed {
        *self.index.hasher()
    }

    /// The channels in order, copied.
    pub fn names(&self, alloc: Global) -> Result<Names, AllocError>
        ensures { IfOk result (λ names. names ≡ self.now.channels) }
    {
        names_of(alloc, &self.places)
    }
}

// Empties a place.
fn empty(place: &mut Option<Name>)
    ensures { place.new ≡ None }
{
    *place = None;
}

// Puts the channels of these places into an index that is empty and has room for them.
fn put_all(index: &mut IndexMap<Key, usize, Seed>, places: &[Option<Name>])
    requires empty { index.old.entries ≡ [] }
    requires room { length places.now ≤ spare index.old }
    requires once { AreOnce (listed places.now) }
    ensures entries { AreThere places.now index.new.entries }
    ensures room { spare index.old ≤ spare index.new + length places.now }
{
    for at in 0..places.len() {
        put(index, &places[at], at);
    }
}

// Puts the channel of one more place into the index of those before.
fn put(index: &mut IndexMap<Key, usize, Seed>, place: &Option<Name>, at: usize)
    requires { 1 ≤ spare index.old }
    ensures entries { (places : List (Option (List ℕ))) → AreThere places index.old.entries
        → at ≡ length places → AreOnce (listed (places ++ place.now ∷ []))
        → AreThere (places ++ place.now ∷ []) index.new.entries }
    ensures room { spare index.old ≤ spare index.new + 1 }
{
    if let Some(name) = place {
        index.insert(Key::new(name.as_bytes()), at).unwrap();
    }
}

// The channel stands in one of these places.
fn is_in(places: &[Option<Name>], channel: &[u8]) -> bool
    ensures { result ≡ list_any (holds channel.now) places.now }
{
    places.iter().any(|place| holds(place, channel))
}

// The channel stands in this place.
fn holds(place: &Option<Name>, channel: &[u8]) -> bool
    ensures { result ≡ holds channel.now place.now }
{
    match place {
        Some(name) => channel == name.as_bytes(),
        None => false,
    }
}

// The channels of places, copied.
fn names_of(alloc: Global, places: &[Option<Name>]) -> Result<Names, AllocError>
    ensures { IfOk result (λ names. names ≡ listed places.now) }
{
    let mut names = Names::new(alloc);
    for place in places {
        push_name(alloc, &mut names, place)?;
    }
    Ok(names)
}

fn push_name(alloc: Global, names: &mut Names, place: &Option<Name>) -> Result<(), AllocError>
    ensures { OnOk result (names.new ≡ names.old ++ listed (place.now ∷ [])) }
{
    match place {
        Some(name) => {
            names.push(name.copy(alloc)?)?;
            Ok(())
        }
        None => Ok(()),
    }
}
