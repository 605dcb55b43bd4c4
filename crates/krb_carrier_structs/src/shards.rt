//! What sessions of one shard share, as C writes it.

ghost use Rattle.std.specs.Prelude.{◌≡◌};
ghost use Rattle.krb_carrier_structs.specs.Shards.{flow_told, reading_told, spot_told, told_flow, told_reading, told_spot};

use krb_engine::{Flow, Reading, Spot};

/// A shard at a sender: zeros are one that doesn't answer.
#[repr(C)]
#[derive(Clone, Copy)]
pub struct KrbFlow {
    /// The list that the shard has now, if `has_list`.
    pub list: u64,
    /// How many frames of its sessions are under way.
    pub under_way: u64,
    /// Not 0: it answers.
    pub has_list: u32,
    /// 0.
    pub reserved: u32,
}

/// A place in a list of a shard: all up to the offset was taken.
#[repr(C)]
#[derive(Clone, Copy)]
pub struct KrbSpot {
    /// The list.
    pub list: u64,
    /// How many of its items were taken.
    pub offset: u64,
}

/// A shard at a receiver.
#[repr(C)]
#[derive(Clone, Copy)]
pub struct KrbReading {
    /// What is stored.
    pub stored: KrbSpot,
    /// Up to where it is read.
    pub read: KrbSpot,
    /// Not 0: a transaction is under way.
    pub is_open: u32,
    /// 0.
    pub reserved: u32,
}

impl KrbFlow {
    /// The struct of a shard.
    pub fn of(flow: Flow) -> KrbFlow
        ensures { result ≡ flow_told flow }
    {
        KrbFlow {
            list: flow.list.unwrap_or(0),
            under_way: flow.under_way,
            has_list: u32::from(flow.list.is_some()),
            reserved: 0,
        }
    }

    /// The shard that it tells.
    pub fn flow(&self) -> Flow
        ensures { result ≡ told_flow self.now }
    {
        Flow {
            list: if self.has_list != 0 {
                Some(self.list)
            } else {
                None
            },
            under_way: self.under_way,
        }
    }
}

impl KrbSpot {
    /// The struct of a place.
    pub fn of(spot: Spot) -> KrbSpot
        ensures { result ≡ spot_told spot }
    {
        KrbSpot {
            list: spot.list,
            offset: spot.offset,
        }
    }

    /// The place that it tells.
    pub fn spot(&self) -> Spot
        ensures { result ≡ told_spot self.now }
    {
        Spot {
            list: self.list,
            offset: self.offset,
        }
    }
}

impl KrbReading {
    /// The struct of a shard.
    pub fn of(reading: Reading) -> KrbReading
        ensures { result ≡ reading_told reading }
    {
        KrbReading {
            stored: KrbSpot::of(reading.stored),
            read: KrbSpot::of(reading.read),
            is_open: u32::from(reading.is_open),
            reserved: 0,
        }
    }

    /// The shard that it tells.
    pub fn reading(&self) -> Reading
        ensures { result ≡ told_reading self.now }
    {
        Reading {
            stored: self.stored.spot(),
            read: self.read.spot(),
            is_open: self.is_open != 0,
        }
    }
}
