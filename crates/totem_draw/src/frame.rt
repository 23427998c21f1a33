//! The measures of a picture, in pixels.
ghost use Rattle.std.specs.Prelude.{◌<◌};

/// The distance from one slot to the next, at least.
const STEP: u32 = 46;

/// The width of a letter of a name, and the space between two names.
const LETTER: u32 = 7;

const BETWEEN: u32 = 4;

/// The position of the text before and below the lanes.
pub const MARGIN: u32 = 16;

/// The position of the first slot, at least.
const LEFT: u32 = 110;

/// The distance from one lane to the next.
const LANE: u32 = 84;

/// The height of a line of text above the lanes.
pub const LINE: u32 = 18;

/// The width of a picture, at least.
const LEAST: u32 = 760;

/// The width of a picture that fits a screen.
const SCREEN: u32 = 1280;

/// The positions of the parts of a picture.
#[derive(Clone, Copy, PartialEq, Eq)]
pub struct Frame {
    /// The position of the first slot.
    pub left: u32,
    /// The top of the lanes.
    pub top: u32,
    pub lanes: usize,
    /// The first slot that is drawn.
    pub first: u32,
    /// How many slots are drawn.
    pub slots: u32,
    /// The distance from one slot to the next.
    pub step: u32,
}

/// Returns the width of this many letters, and of a space after them.
fn width_of(letters: usize) -> u32 {
    let letters = u32::try_from(letters).unwrap_or(u32::MAX);
    letters.saturating_mul(LETTER).saturating_add(BETWEEN)
}

/// Returns the distance from one slot to the next at which names of this many letters don't overlap.
pub fn step_for(letters: usize) -> u32 {
    width_of(letters).max(STEP)
}

/// Returns the position of the first slot behind names of processes of this many letters.
pub fn left_for(letters: usize) -> u32 {
    MARGIN.saturating_add(width_of(letters)).max(LEFT)
}

impl Frame {
    /// Returns the left edge of a slot.
    pub fn x(&self, slot: u32) -> u32 {
        let steps = slot.saturating_sub(self.first);
        self.left.saturating_add(steps.saturating_mul(self.step))
    }

    /// Returns the horizontal middle of a slot.
    pub fn middle(&self, slot: u32) -> u32 {
        self.x(slot).saturating_add(self.step / 2)
    }

    /// Returns the vertical position of a lane, counted from 0.
    pub fn y(&self, lane: usize) -> u32 {
        let lanes = u32::try_from(lane).unwrap_or(u32::MAX).saturating_mul(LANE);
        self.top.saturating_add(LANE / 2).saturating_add(lanes)
    }

    /// Returns the slot behind those that are drawn.
    pub fn end(&self) -> u32 {
        self.first.saturating_add(self.slots)
    }

    /// Returns the horizontal position of a pending delivery: after all slots.
    pub fn behind(&self) -> u32 {
        self.middle(self.end())
    }

    /// Returns how many slots fit a screen.
    fn slots_of_screen(&self) -> u32
        ensures { 0 < result }
    {
        let width = SCREEN.saturating_sub(self.left);
        let slots = width.checked_div(self.step).unwrap_or(0);
        slots.saturating_sub(1).max(1)
    }

    /// Returns in how many strips, one below the other, the slots fit a screen.
    pub fn strips(&self) -> u32 {
        self.slots.div_ceil(self.slots_of_screen()).max(1)
    }

    /// Returns the frame of a strip, counted from 0, with the slots that it has.
    pub fn strip(&self, number: u32) -> Frame {
        let most = self.slots_of_screen();
        let before = number.saturating_mul(most);
        let lanes = u32::try_from(self.lanes).unwrap_or(u32::MAX);
        let height = lanes.saturating_mul(LANE).saturating_add(LINE);
        Frame {
            top: self.top.saturating_add(number.saturating_mul(height)),
            first: self.first.saturating_add(before),
            slots: self.slots.saturating_sub(before).min(most),
            ..*self
        }
    }

    /// Returns the frame of a picture in strips: as wide as the first one, with the text below the last one.
    pub fn around_strips(&self) -> Frame {
        let last = self.strip(self.strips().saturating_sub(1));
        Frame {
            top: last.top,
            ..self.strip(0)
        }
    }

    pub fn width(&self) -> u32 {
        self.behind().saturating_add(self.step).max(LEAST)
    }

    /// Returns the vertical position of a line of text below the lanes.
    pub fn line_below(&self, line: u32) -> u32 {
        let lines = line.saturating_add(1).saturating_mul(LINE);
        self.y(self.lanes).saturating_add(lines)
    }
}
