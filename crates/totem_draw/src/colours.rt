//! The fills of configurations: one in all lanes, and different ones for two that lie beside each other in time, or to which processes go
//! from the same one.
use crate::bands::Row;
use crate::shapes::{FILL_COUNT, PLAIN_COUNT};
use std::alloc::{AllocError, Global};
use totem_names::ConfId;

/// A configuration, the slots from the first to the last one of its bands, and its fill.
#[derive(Clone, Copy)]
struct Area {
    conf: ConfId,
    from: u32,
    to: u32,
    fill: usize,
}

impl Area {
    /// Returns whether two areas share a slot, or one begins where the other ends.
    fn is_beside(&self, other: &Area) -> bool {
        self.from <= other.to.saturating_add(1) && other.from <= self.to.saturating_add(1)
    }
}

/// A way that a process went, from one configuration to the next.
#[derive(Clone, Copy, PartialEq, Eq, PartialOrd, Ord)]
struct Way {
    from: ConfId,
    to: ConfId,
}

/// Returns the areas of these lanes, in the order in which they begin.
fn areas_of(alloc: Global, rows: &[Row]) -> Result<Vec<Area>, AllocError> {
    let mut areas: Vec<Area> = Vec::new(alloc);
    for row in rows {
        for band in &row.bands {
            areas.push(Area {
                conf: band.conf,
                from: band.from,
                to: band.to,
                fill: 0,
            })?;
        }
    }
    areas.sort_by_key(|area| area.conf)?;
    areas.dedup_by(|next, kept| {
        let is_same = next.conf.is(&kept.conf);
        if is_same {
            kept.from = kept.from.min(next.from);
            kept.to = kept.to.max(next.to);
        }
        is_same
    });
    areas.sort_by_key(|area| (area.from, area.conf))?;
    Ok(areas)
}

/// Returns the ways in these lanes, in ascending order.
fn ways_of(alloc: Global, rows: &[Row]) -> Result<Vec<Way>, AllocError> {
    let mut ways = Vec::new(alloc);
    for row in rows {
        for (band, next) in row.bands.iter().zip(row.bands.iter().skip(1)) {
            ways.push(Way {
                from: band.conf,
                to: next.conf,
            })?;
        }
    }
    ways.sort_by_key(|way| *way)?;
    ways.dedup();
    Ok(ways)
}

/// Returns the configurations from which processes go to this one.
fn origins_of(alloc: Global, ways: &[Way], conf: &ConfId) -> Result<Vec<ConfId>, AllocError> {
    let mut origins = Vec::new(alloc);
    for way in ways {
        if way.to.is(conf) {
            origins.push(way.from)?;
        }
    }
    Ok(origins)
}

/// Returns whether processes go from one of these configurations to this one.
fn is_next_to(ways: &[Way], origins: &[ConfId], conf: &ConfId) -> bool {
    origins.iter().any(|origin| {
        let way = Way {
            from: *origin,
            to: *conf,
        };
        ways.binary_search(&way).is_ok()
    })
}

/// Returns a fill for the n-th area that is not among these, a plain colour if there is one.
fn free_fill(n: usize, taken: u64) -> usize {
    let start = n % PLAIN_COUNT;
    for fill in 0..FILL_COUNT {
        let turned = fill / PLAIN_COUNT * PLAIN_COUNT + (fill + start) % PLAIN_COUNT;
        if taken >> turned & 1 == 0 {
            return turned;
        }
    }
    start
}

/// The fills of configurations, in ascending order of these.
#[derive(Drop)]
pub struct Colours {
    areas: Vec<Area>,
}

impl Colours {
    /// Gives each configuration of these lanes a fill.
    pub fn of(alloc: Global, rows: &[Row]) -> Result<Colours, AllocError> {
        let ways = ways_of(alloc, rows)?;
        let mut areas: Vec<Area> = Vec::new(alloc);
        for area in &areas_of(alloc, rows)? {
            let origins = origins_of(alloc, ways.as_slice(), &area.conf)?;
            let mut taken = 0u64;
            for other in &areas {
                if area.is_beside(other)
                    || is_next_to(ways.as_slice(), origins.as_slice(), &other.conf)
                {
                    taken |= 1u64 << (other.fill % FILL_COUNT);
                }
            }
            areas.push(Area {
                fill: free_fill(areas.len(), taken),
                ..*area
            })?;
        }
        areas.sort_by_key(|area| area.conf)?;
        Ok(Colours { areas })
    }

    /// Returns whether a fill is a colour with a texture.
    pub fn have_textures(&self) -> bool {
        self.areas.iter().any(|area| area.fill >= PLAIN_COUNT)
    }

    /// Returns the fill of a configuration.
    pub fn fill_of(&self, conf: &ConfId) -> usize {
        let at = self.areas.partition_point(|area| area.conf.is_below(conf));
        self.areas.get(at).map_or(0, |area| area.fill)
    }
}
