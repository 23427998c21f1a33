//! The ways of lines between lanes: straight if nothing is drawn in between, else round the shapes and texts of other events.
use crate::events::letters_at;
use crate::frame::Frame;
use crate::shapes::Point;
use std::alloc::{AllocError, Global};
use totem_explain::{Lane, What};

/// How far above and below the middle of a lane its shapes and texts reach.
const REACH: u32 = 31;

/// How far above the middle of a lane a line runs that passes other events of the lane.
const PASSING: u32 = 17;

/// Returns half the width of a text of this many letters.
fn half_of(letters: usize) -> u32 {
    u32::try_from(letters).unwrap_or(u32::MAX).saturating_mul(3)
}

/// Where a line begins or ends.
#[derive(Clone, Copy, PartialEq, Eq)]
pub struct End {
    pub lane: usize,
    pub slot: u32,
}

impl End {
    /// Returns the middle of the slot.
    pub fn point(&self, frame: &Frame) -> Point {
        Point {
            x: frame.middle(self.slot),
            y: frame.y(self.lane),
        }
    }

    /// Returns the gap between slots at which a line leaves this slot for another one, or comes from there.
    fn gap_towards(&self, other: &End) -> u32 {
        if self.slot < other.slot {
            self.slot.saturating_add(1)
        } else {
            self.slot
        }
    }
}

/// A rectangle with the shape or a text of an event.
#[derive(Clone, Copy)]
struct Obstacle {
    at: End,
    left: u32,
    right: u32,
    top: u32,
    bottom: u32,
}

/// Returns the horizontal position of a line at a height between its ends, of which the first is the upper one.
fn x_at(upper: Point, lower: Point, y: u32) -> u32 {
    let width = u64::from(upper.x.abs_diff(lower.x));
    let above = u64::from(y.saturating_sub(upper.y));
    let height = u64::from(lower.y.saturating_sub(upper.y));
    let part = width.saturating_mul(above).checked_div(height).unwrap_or(0);
    let part = u32::try_from(part).unwrap_or(u32::MAX);
    if upper.x <= lower.x {
        upper.x.saturating_add(part)
    } else {
        upper.x.saturating_sub(part)
    }
}

impl Obstacle {
    /// Returns whether a line between two points comes into the rectangle.
    fn is_hit(&self, from: Point, to: Point) -> bool {
        let (upper, lower) = if from.y <= to.y {
            (from, to)
        } else {
            (to, from)
        };
        let top = self.top.max(upper.y);
        let bottom = self.bottom.min(lower.y);
        let (one, other) = if upper.y == lower.y {
            (upper.x, lower.x)
        } else {
            (x_at(upper, lower, top), x_at(upper, lower, bottom))
        };
        top <= bottom && one.min(other) <= self.right && self.left <= one.max(other)
    }
}

/// What lines between lanes have to go round.
#[derive(Drop)]
pub struct Routes<'f> {
    frame: &'f Frame,
    obstacles: Vec<Obstacle>,
}

impl Routes<'_> {
    /// Returns the routes between these lanes.
    pub fn of<'f>(
        alloc: Global,
        frame: &'f Frame,
        lanes: &[Lane],
    ) -> Result<Routes<'f>, AllocError> {
        let mut routes = Routes {
            frame,
            obstacles: Vec::new(alloc),
        };
        for (number, lane) in lanes.iter().enumerate() {
            for spot in lane.spots.as_slice() {
                let at = End {
                    lane: number,
                    slot: spot.slot,
                };
                routes.add_spot(&at, spot.what, letters_at(alloc, spot)?)?;
            }
        }
        Ok(routes)
    }

    /// Adds what is drawn at a spot.
    fn add_spot(&mut self, at: &End, what: What, letters: usize) -> Result<(), AllocError> {
        let y = self.frame.y(at.lane);
        match what {
            What::Change => {
                let (top, bottom) = (y.saturating_sub(REACH), y.saturating_sub(PASSING + 1));
                self.add(at, half_of(letters), top, bottom)
            }
            What::LeftOut(_) => {
                let (top, bottom) = (y.saturating_sub(7), y.saturating_add(7));
                self.add(at, half_of(letters), top, bottom)
            }
            _ => self.add_ring(at, letters),
        }
    }

    /// Adds a ring, or another shape of its size, with a text of this many letters below it.
    pub fn add_ring(&mut self, at: &End, letters: usize) -> Result<(), AllocError> {
        let y = self.frame.y(at.lane);
        self.add(at, 10, y.saturating_sub(9), y.saturating_add(9))?;
        let (top, bottom) = (y.saturating_add(17), y.saturating_add(REACH - 2));
        self.add(at, half_of(letters), top, bottom)
    }

    /// Adds the rectangle of this half width around the middle of a slot, from one height to another.
    fn add(&mut self, at: &End, half: u32, top: u32, bottom: u32) -> Result<(), AllocError> {
        let x = self.frame.middle(at.slot);
        self.obstacles.push(Obstacle {
            at: *at,
            left: x.saturating_sub(half),
            right: x.saturating_add(half),
            top,
            bottom,
        })?;
        Ok(())
    }

    /// Returns whether the straight line between two ends meets nothing but what is drawn at these.
    fn is_straight(&self, from: &End, to: &End) -> bool {
        let (one, other) = (from.point(self.frame), to.point(self.frame));
        !self.obstacles.iter().any(|obstacle| {
            let is_own = obstacle.at == *from || obstacle.at == *to;
            !is_own && obstacle.is_hit(one, other)
        })
    }

    /// Returns the points of the line from one end to another.
    pub fn between(&self, alloc: Global, from: &End, to: &End) -> Result<Vec<Point>, AllocError> {
        let (first, last) = (from.point(self.frame), to.point(self.frame));
        let mut points = Vec::new(alloc);
        points.push(first)?;
        let is_straight = self.is_straight(from, to);
        if !is_straight && from.lane == to.lane {
            self.push_over(&mut points, first, last)?;
        } else if !is_straight {
            self.push_through(&mut points, from, to)?;
        }
        points.push(last)?;
        Ok(points)
    }

    /// Adds the points of a line that passes over what is between two events of its lane.
    fn push_over(
        &self,
        points: &mut Vec<Point>,
        first: Point,
        last: Point,
    ) -> Result<(), AllocError> {
        let y = first.y.saturating_sub(PASSING);
        let (near, far) = if first.x <= last.x {
            (
                first.x.saturating_add(PASSING),
                last.x.saturating_sub(PASSING),
            )
        } else {
            (
                first.x.saturating_sub(PASSING),
                last.x.saturating_add(PASSING),
            )
        };
        points.push(Point { x: near, y })?;
        points.push(Point { x: far, y })?;
        Ok(())
    }

    /// Adds the points of a line that crosses lanes in the gaps between their slots.
    fn push_through(
        &self,
        points: &mut Vec<Point>,
        from: &End,
        to: &End,
    ) -> Result<(), AllocError> {
        let is_down = from.lane < to.lane;
        let leaving = self.gate(from.gap_towards(to), from.lane, is_down);
        let coming = self.gate(to.gap_towards(from), to.lane, !is_down);
        points.push(leaving)?;
        let between = if is_down {
            to.lane.saturating_sub(from.lane)
        } else {
            from.lane.saturating_sub(to.lane)
        };
        for number in 1..between {
            let lane = if is_down {
                from.lane.saturating_add(number)
            } else {
                from.lane.saturating_sub(number)
            };
            let (upper, lower) = if is_down {
                (leaving, coming)
            } else {
                (coming, leaving)
            };
            let gap = self.gap_at(x_at(upper, lower, self.frame.y(lane)));
            points.push(self.gate(gap, lane, !is_down))?;
            points.push(self.gate(gap, lane, is_down))?;
        }
        points.push(coming)?;
        Ok(())
    }

    /// Returns the gap between slots that is nearest to this horizontal position: the number of the slot behind it.
    fn gap_at(&self, x: u32) -> u32 {
        let steps = x
            .saturating_sub(self.frame.left)
            .saturating_add(self.frame.step / 2);
        let gap = steps.checked_div(self.frame.step).unwrap_or(0);
        self.frame.first.saturating_add(gap)
    }

    /// Returns the point at a gap just below or just above a lane.
    fn gate(&self, gap: u32, lane: usize, is_below: bool) -> Point {
        let y = self.frame.y(lane);
        Point {
            x: self.frame.x(gap).saturating_sub(2),
            y: if is_below {
                y.saturating_add(REACH)
            } else {
                y.saturating_sub(REACH)
            },
        }
    }
}
