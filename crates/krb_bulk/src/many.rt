//! Sealing of several messages.

ghost use Rattle.std.specs.Prelude.{◌≡◌, ◌≤◌, ◌↔◌, ◌+◌, [], length, IsTrue, vec_len, true, MatchResult, IfOk, OnOk, OnErr};
ghost use Rattle.krb_etype.specs.CodeKey.{code_key};
ghost use Rattle.krb_keys.specs.BatchMac.{HoldsBatchKey};
ghost use Rattle.krb_seal.specs.Mode.{purpose_of};
ghost use Rattle.krb_seal.specs.Sealer.{end_of_numbers};
ghost use Rattle.krb_seal.specs.Lent.{advanced_by};
ghost use Rattle.krb_bulk.specs.Many.{AnswersMany, CanSealInTurn, SealsInTurn};
ghost use Rattle.krb_bulk.specs.Numbered.{CanSealAt, CanSealSize, RefusesAt, RefusesSize};
ghost use Rattle.krb_bulk.specs.Four.{AreFrom};
ghost use Rattle.krb_bulk.specs.BulkInside.{IsReady, SealsAt, SealsFirst, sealer_of};

use crate::bulk::Bulk;
use crate::four::Four;
use crate::many_error::ManyError;
use crate::unsealed::Unsealed;
use krb_base::{LAST_NUMBER, USER_DATA_LIMIT};
use krb_der::Addresses;
use krb_keys::BatchMac;
use krb_seal::{AesSealer, Mode, SealError, Sealer};
use std::alloc::{AllocError, Global};

/// Whether so many messages are made side by side.
pub fn are_many(count: usize) -> bool
    ensures { IsTrue result ↔ (8 ≤ count) }
{
    count >= 8
}

/// Whether a message with so many bytes of user data can be sealed at a number, by a sealer that is wiped or not.
pub fn check_size(is_wiped: bool, number: u64, len: usize) -> Result<(), SealError>
    ensures { MatchResult result (λ _. CanSealSize is_wiped number len)
        (RefusesSize is_wiped number len) }
{
    if is_wiped {
        return Err(SealError::Wiped);
    }
    if len > USER_DATA_LIMIT {
        return Err(SealError::TooLong);
    }
    if number > LAST_NUMBER {
        return Err(SealError::Exhausted);
    }
    Ok(())
}

/// The same of a message.
fn check_message(is_wiped: bool, number: u64, message: &Unsealed<'_>) -> Result<(), SealError>
    ensures { MatchResult result (λ _. CanSealAt is_wiped number message.now)
        (RefusesAt is_wiped number message.now) }
{
    check_size(is_wiped, number, message.user_data.len())
}

/// Whether messages can be sealed one after another.
fn check<E>(sealer: &AesSealer<E>, messages: &[Unsealed<'_>]) -> Result<(), ManyError>
    ensures { AnswersMany sealer.now messages.now result }
{
    let is_wiped = sealer.is_wiped();
    let mut number = sealer.next();
    for (index, message) in messages.iter().enumerate() {
        if let Err(why) = check_message(is_wiped, number, message) {
            return Err(ManyError::Refused { index, why });
        }
        number += 1;
    }
    Ok(())
}

impl Bulk<'_, '_, '_> {
    /// Puts four frames after those that there are.
    fn put_four(&self, frames: &mut Vec<Vec<u8>>, four: Four<Vec<u8>>) -> Result<(), AllocError>
        requires first { SealsFirst self.now frames.old.items }
        requires room { vec_len frames.old + 4 ≤ length self.now.messages.now }
        requires four { AreFrom (λ k v. SealsAt self.now k v.items) (vec_len frames.old) four }
        ensures first { OnOk result (SealsFirst self.now frames.new.items) }
        ensures count { OnOk result (vec_len frames.new ≡ vec_len frames.old + 4) }
    {
        let Four { a, b, c, d } = four;
        frames.push(a)?;
        frames.push(b)?;
        frames.push(c)?;
        frames.push(d)?;
        Ok(())
    }

    /// The frames of eight messages from this index on.
    fn eight(
        &self,
        alloc: Global,
        mac: &BatchMac,
        from: usize,
    ) -> Result<(Four<Vec<u8>>, Four<Vec<u8>>), AllocError>
        requires ready { IsReady self.now }
        requires from { from + 8 ≤ length self.now.messages.now }
        requires mac { HoldsBatchKey mac.now (code_key
            (purpose_of self.now.parts.session.now.mode) self.now.parts.keys.now.key) }
        ensures first { IfOk result (λ r. AreFrom (λ k v. SealsAt self.now k v.items) from r.0) }
        ensures second { IfOk result (λ r.
            AreFrom (λ k v. SealsAt self.now k v.items) (from + 4) r.1) }
    {
        match self.parts.session.mode {
            Mode::Safe => self.eight_safe(alloc, mac, from),
            Mode::Priv => self.eight_private(alloc, mac, from),
        }
    }

    /// Puts the frames of as many messages as there are eights of.
    fn put_eights(
        &self,
        alloc: Global,
        mac: &BatchMac,
        frames: &mut Vec<Vec<u8>>,
    ) -> Result<(), AllocError>
        requires ready { IsReady self.now }
        requires mac { HoldsBatchKey mac.now (code_key
            (purpose_of self.now.parts.session.now.mode) self.now.parts.keys.now.key) }
        requires none { vec_len frames.old ≡ 0 }
        ensures { OnOk result (SealsFirst self.now frames.new.items) }
    {
        for _ in 0..self.messages.len() / 8 {
            let (first, second) = self.eight(alloc, mac, frames.len())?;
            self.put_four(frames, first)?;
            self.put_four(frames, second)?;
        }
        Ok(())
    }

    /// The same, if a key for eight codes at a time is ready.
    fn put_side_by_side(&self, alloc: Global, frames: &mut Vec<Vec<u8>>) -> Result<(), AllocError>
        requires ready { IsReady self.now }
        requires none { vec_len frames.old ≡ 0 }
        ensures { OnOk result (SealsFirst self.now frames.new.items) }
    {
        match self.parts.keys.batch_mac() {
            Some(mac) => self.put_eights(alloc, mac, frames),
            None => Ok(()),
        }
    }

    /// Puts the frames of four messages, if they are KRB-PRIV and there are so many.
    fn put_private(&self, alloc: Global, frames: &mut Vec<Vec<u8>>) -> Result<(), AllocError>
        requires ready { IsReady self.now }
        requires first { SealsFirst self.now frames.old.items }
        ensures { OnOk result (SealsFirst self.now frames.new.items) }
    {
        let from = frames.len();
        if self.parts.session.mode == Mode::Priv && self.messages.len() - from >= 4 {
            let four = self.four_private(alloc, from)?;
            self.put_four(frames, four)?;
        }
        Ok(())
    }

    /// Puts the frames of the messages that are left, one by one.
    fn put_rest(&self, alloc: Global, frames: &mut Vec<Vec<u8>>) -> Result<(), AllocError>
        requires ready { IsReady self.now }
        requires first { SealsFirst self.now frames.old.items }
        ensures { OnOk result (SealsInTurn (sealer_of self.now) self.now.messages.now
            frames.new.items) }
    {
        for index in frames.len()..self.messages.len() {
            let frame = self.frame(alloc, index)?;
            frames.push(frame)?;
        }
        Ok(())
    }

    /// The frames of all messages.
    fn frames(&self, alloc: Global) -> Result<Vec<Vec<u8>>, AllocError>
        requires { IsReady self.now }
        ensures { IfOk result (λ frames. SealsInTurn (sealer_of self.now) self.now.messages.now
            frames.items) }
    {
        let mut frames = Vec::with_capacity(alloc, self.messages.len())?;
        self.put_side_by_side(alloc, &mut frames)?;
        self.put_private(alloc, &mut frames)?;
        self.put_rest(alloc, &mut frames)?;
        Ok(frames)
    }
}

/// The frames that calls of [`Sealer::seal`] give one after another, each of a message and at the
/// next sequence number. The sealer stays as it is, so whoever hands these frames on passes over
/// their numbers ([`AesSealer::pass`]). Eight at a time are made side by side where the sealer is
/// prepared ([`AesSealer::prepare_batch`]).
///
/// Whether all can be sealed is looked at before any memory is asked for.
pub fn frames_of<E>(
    alloc: Global,
    sealer: &AesSealer<E>,
    messages: &[Unsealed<'_>],
) -> Result<Vec<Vec<u8>>, ManyError>
    ensures sealed { IfOk result (λ frames. SealsInTurn sealer.now messages.now frames.items) }
    ensures numbers { OnOk result (sealer.now.next + length messages.now ≤ end_of_numbers) }
    ensures answer { AnswersMany sealer.now messages.now result }
{
    check(sealer, messages)?;
    let next = sealer.next();
    if messages.is_empty() {
        return Ok(Vec::new(alloc));
    }
    let parts = sealer.parts();
    let session = parts.session;
    let addresses = Addresses::new(alloc, &session.s_addr, &session.r_addr)?;
    let bulk = Bulk {
        parts,
        next,
        messages,
        addresses: &addresses,
    };
    Ok(bulk.frames(alloc)?)
}

/// Seals messages: the frames that calls of [`Sealer::seal`] give one after another, each of a
/// message and at the next sequence number. All are sealed or none.
///
/// On an error the sealer is unchanged. Whether all can be sealed is looked at before any memory is
/// asked for.
pub fn seal_many<E>(
    alloc: Global,
    sealer: &mut AesSealer<E>,
    messages: &[Unsealed<'_>],
) -> Result<Vec<Vec<u8>>, ManyError>
    ensures sealed { IfOk result (λ frames. SealsInTurn sealer.old messages.now frames.items) }
    ensures advanced { OnOk result (sealer.new ≡ advanced_by sealer.old (length messages.now)) }
    ensures unchanged { OnErr result (sealer.new ≡ sealer.old) }
    ensures answer { AnswersMany sealer.old messages.now result }
{
    if are_many(messages.len()) {
        sealer.prepare_batch();
    }
    let frames = frames_of(alloc, sealer, messages)?;
    sealer.pass(messages.len() as u64);
    Ok(frames)
}
