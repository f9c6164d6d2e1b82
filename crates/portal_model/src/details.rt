//! The details of a session, be it open or ended.

ghost use Rattle.portal_model.specs.Details.{OpenUntilEnd};

use crate::moment::Moment;
use crate::name::{Device, Id};

/// Why a session has ended.
#[derive(Clone, Copy, Debug, PartialEq, Eq)]
pub enum End {
    /// It was closed.
    Closed,
    /// Its time is over.
    Time,
    /// Its bytes are used.
    Bytes,
}

/// The details of a session at a time.
#[derive(Clone, Copy, Debug, PartialEq, Eq)]
pub struct SessionDetails {
    /// The time at which it was closed, or at which its time was over. None while it is open, and where its
    /// bytes are used, since nothing tells since when.
    pub at: Option<Moment>,
    /// The bytes left of its allowance, if it is limited in bytes.
    pub bytes: Option<u64>,
    pub device: Device,
    /// The first reason for which it has ended. None while it is open.
    pub ended: Option<End>,
    /// The time of the redemption that opened it.
    pub opened: Moment,
    /// The plan of the voucher that opened it.
    pub plan: Id,
    /// The seconds until its time is over, if it is limited in time.
    pub seconds: Option<u64>,
    pub number: u64,
    /// The greatest number of bytes that the gateway reported.
    pub used: u64,
}

/// What a session is found by.
#[derive(Clone, Copy, Debug, PartialEq, Eq)]
pub enum SessionKey {
    /// Its number.
    Number(u64),
    /// Its device, whose last session it is.
    Last(Device),
}

/// Law: a session is open exactly if there is no reason for which it has ended.
pub fn open_until_end()
    ensures { OpenUntilEnd }
{}
