//! What sessions of one shard share, at a sender and at a receiver.

ghost use Rattle.std.specs.Prelude.{◌≡◌, ◌+◌, ◌^◌, ◌<◌, ◌≤◌, false};
ghost use Rattle.krb_engine.specs.Shards.{ReadsOn, moved, read_to, room_of, taken};
ghost use Rattle.krb_engine.specs.ShardLaws.{FewAreUnderWay, NothingIsSkipped, OneTransactionAfterAnother, OtherListsBegin, RoomIsLeft, UnderWayIsTheSum};

/// How many frames of a shard are under way at most.
const UNDER_WAY: u64 = 2_048;

/// A shard at a sender.
#[derive(Clone, Copy, Debug, PartialEq, Eq)]
pub struct Flow {
    /// The list that the shard has now, if it answers.
    pub list: Option<u64>,
    /// How many frames of its sessions are under way.
    pub under_way: u64,
}

impl Flow {
    /// How many frames more may be under way: none while the shard has no list.
    pub fn room(&self) -> u64
        ensures { result ≡ room_of self.now }
    {
        match self.list {
            Some(_) => UNDER_WAY.saturating_sub(self.under_way),
            None => 0,
        }
    }

    /// One of its sessions had so many frames under way, and has so many now.
    pub fn moved(&mut self, before: u64, after: u64)
        requires there { before ≤ self.old.under_way }
        requires fits { self.old.under_way + after < 2 ^ 64 }
        ensures { self.new ≡ moved self.old before after }
    {
        self.under_way = self.under_way - before + after;
    }
}

/// A place in a list of a shard: all up to the offset was taken.
#[derive(Clone, Copy, Debug, PartialEq, Eq)]
pub struct Spot {
    /// The list.
    pub list: u64,
    /// How many of its items were taken.
    pub offset: u64,
}

/// The result of a read.
#[derive(Clone, Copy, Debug, PartialEq, Eq)]
pub enum Read {
    /// Nothing new.
    Nothing,
    /// The list isn't what it was: read again from where it is read now.
    Elsewhere,
    /// The frames are for the next transaction, which compares what is stored and sets where it is read.
    Take,
}

/// A shard at a receiver: one transaction after another.
#[derive(Clone, Copy, Debug, PartialEq, Eq)]
pub struct Reading {
    /// What is stored.
    pub stored: Spot,
    /// Up to where it is read.
    pub read: Spot,
    /// Whether a transaction is under way.
    pub is_open: bool,
}

impl Reading {
    /// The shard of which so much is stored.
    pub fn load(stored: Spot) -> Reading
        ensures { result ≡ read_to stored stored false }
    {
        Reading {
            stored,
            read: stored,
            is_open: false,
        }
    }

    /// So many frames came after where it is read, from this list, which has so many items. Of another
    /// list, and of one that was cut off, none is taken; while a transaction is under way, neither.
    pub fn frames(&mut self, list: u64, last: u64, count: u64) -> Read
        requires { self.old.read.offset + count < 2 ^ 64 }
        ensures { ReadsOn self.old list last count result self.new }
    {
        if self.is_open {
            return Read::Nothing;
        }
        if list != self.read.list {
            self.read = Spot { list, offset: 0 };
            return Read::Elsewhere;
        }
        if last < self.read.offset {
            self.read.offset = last;
            return Read::Elsewhere;
        }
        if count == 0 {
            return Read::Nothing;
        }
        self.read.offset += count;
        self.is_open = true;
        Read::Take
    }

    /// The transaction took effect. If it didn't, or nobody knows, what is stored is loaded again.
    pub fn stored(&mut self)
        ensures { self.new ≡ taken self.old }
    {
        self.stored = self.read;
        self.is_open = false;
    }
}

/// What holds of the shards of both ends.
///
/// What is under way in a shard is the sum over its sessions (`sum`), and stays within the bound, if each
/// session publishes what it has room for (`few`). A receiver takes each item of a list after the one
/// before, and skips none: where it goes elsewhere it goes back, or begins another list (`skips`). Of one
/// list that isn't cut off, each transaction begins where the one before it ended, as a reading of krb_carry
/// (`turns`).
///
/// A shard that has a list has room up to the bound (`room`), and another list is read from its beginning
/// (`lists`).
pub fn shard_laws()
    ensures sum { UnderWayIsTheSum }
    ensures few { FewAreUnderWay }
    ensures skips { NothingIsSkipped }
    ensures turns { OneTransactionAfterAnother }
    ensures room { RoomIsLeft }
    ensures lists { OtherListsBegin }
{}
