//! Reads numbers, texts and states from the front of bytes.
ghost use Rattle.std.specs.Int.{w32, w64};
ghost use Rattle.runner_snapshot.specs.Reading.{bytes_at, byte_at, flag_at, Gives, mask_at};
ghost use Rattle.runner_snapshot.specs.Reading.{number_at, query_text_at, signed_at, state_at};
ghost use Rattle.runner_snapshot.specs.Reading.{text_at};

use crate::number_bytes::HALF;
use crate::{Flaw, SnapStop};
use rate_expr::State;

// A query text has at most this many bytes.
const MAX_TEXT: usize = 65536;

/// The bytes that are still to be read.
#[derive(Drop)]
pub(crate) struct Reader<'a> {
    pub(crate) rest: &'a [u8],
}

impl<'a> Reader<'a> {
    pub(crate) fn byte(&mut self) -> Result<u8, SnapStop>
        ensures { Gives (λ byte. byte) result self.new.rest.now (byte_at self.old.rest.now) }
    {
        match self.rest {
            [] => Err(SnapStop::Bad(Flaw::Form)),
            [byte, rest @ ..] => {
                self.rest = rest;
                Ok(*byte)
            }
        }
    }

    fn bytes(&mut self, count: usize) -> Result<&'a [u8], SnapStop>
        ensures { Gives (λ bytes. bytes.now) result self.new.rest.now
            (bytes_at count self.old.rest.now) }
    {
        if self.rest.len() < count {
            return Err(SnapStop::Bad(Flaw::Form));
        }
        let (front, rest) = self.rest.split_at(count);
        self.rest = rest;
        Ok(front)
    }

    #[tactic(auto, unfolding(crate::specs::Reading::number_at))]
    pub(crate) fn count(&mut self) -> Result<u32, SnapStop>
        ensures { Gives (λ count. count) result self.new.rest.now
            (number_at w32 self.old.rest.now) }
    {
        let front = self.bytes(4)?;
        Ok(u32::from_be_bytes([front[0], front[1], front[2], front[3]]))
    }

    #[tactic(auto, unfolding(crate::specs::Reading::number_at))]
    pub(crate) fn number(&mut self) -> Result<u64, SnapStop>
        ensures { Gives (λ number. number) result self.new.rest.now
            (number_at w64 self.old.rest.now) }
    {
        let front = self.bytes(8)?;
        Ok(u64::from_be_bytes([
            front[0], front[1], front[2], front[3], front[4], front[5], front[6], front[7],
        ]))
    }

    #[tactic(auto, unfolding(crate::specs::Reading::signed_at))]
    pub(crate) fn signed(&mut self) -> Result<i64, SnapStop>
        ensures { Gives (λ number. number) result self.new.rest.now
            (signed_at self.old.rest.now) }
    {
        Ok(self.number()?.cast_signed())
    }

    #[tactic(auto, unfolding(crate::specs::Reading::text_at))]
    pub(crate) fn text(&mut self) -> Result<&'a [u8], SnapStop>
        ensures { Gives (λ text. text.now) result self.new.rest.now (text_at self.old.rest.now) }
    {
        let count = self.count()?;
        self.bytes(count as usize)
    }

    #[tactic(auto, unfolding(crate::specs::Reading::query_text_at))]
    pub(crate) fn query_text(&mut self) -> Result<&'a [u8], SnapStop>
        ensures { Gives (λ text. text.now) result self.new.rest.now
            (query_text_at self.old.rest.now) }
    {
        let text = self.text()?;
        if text.len() > MAX_TEXT {
            return Err(SnapStop::Bad(Flaw::Form));
        }
        Ok(text)
    }

    #[tactic(auto, unfolding(crate::specs::Reading::flag_at))]
    pub(crate) fn flag(&mut self) -> Result<bool, SnapStop>
        ensures { Gives (λ flag. flag) result self.new.rest.now (flag_at self.old.rest.now) }
    {
        match self.byte()? {
            0 => Ok(false),
            1 => Ok(true),
            _ => Err(SnapStop::Bad(Flaw::Form)),
        }
    }

    #[tactic(auto, unfolding(crate::specs::Reading::mask_at))]
    fn mask(&mut self) -> Result<u128, SnapStop>
        ensures { Gives (λ mask. mask) result self.new.rest.now (mask_at self.old.rest.now) }
    {
        let high = self.number()?;
        let low = self.number()?;
        Ok(u128::from(high) * HALF + u128::from(low))
    }

    #[tactic(auto, unfolding(crate::specs::Reading::state_at))]
    pub(crate) fn state(&mut self) -> Result<State, SnapStop>
        ensures { Gives (λ state. state) result self.new.rest.now (state_at self.old.rest.now) }
    {
        match self.byte()? {
            0 => Ok(State::Initial),
            1 => Ok(State::At(self.mask()?)),
            _ => Err(SnapStop::Bad(Flaw::Form)),
        }
    }
}
