ghost use Rattle.std.specs.Prelude.{◌≡◌, ◌-◌, nat_le, slice_set};
ghost use Rattle.flat_store.specs.Roomy.{drained_by, filled_by, shifted, with_drained, with_filled};
ghost use Rattle.flat_store.specs.Shown.{gauge_at, is_full, filled, drained};

use std::marker::Model;

/// How much of something is used, and how much there is: records of a volume, entries of its VTOC.
#[derive(Drop)]
pub(crate) struct Gauge {
    used: u32,
    most: u32,
}

impl Model for Gauge {
    ghost use Rattle.std.specs.Prelude.{◌≤◌};
    ghost use Rattle.flat_store.specs.Shown.{Gauge as Gauged};

    ghost Value = { Gauged };

    ghost view = { λ g. record { used = g.used; most = g.most } };

    ghost invariant = { λ g. g.used ≤ g.most };
}

impl Gauge {
    /// Nothing is used of so much.
    pub(crate) fn new(most: u32) -> Gauge
        ensures { result ≡ record { used = 0; most = most } }
    {
        Gauge { used: 0, most }
    }

    /// How much is used.
    pub(crate) fn used(&self) -> u32
        ensures { result ≡ self.now.used }
    {
        self.used
    }

    /// Whether all is used, which is never exceeded.
    pub(crate) fn is_full(&self) -> bool
        ensures used { result ≡ is_full self.now }
        ensures most { result ≡ nat_le self.now.most self.now.used }
    {
        self.used == self.most
    }

    /// One more is used, unless all is.
    pub(crate) fn fill(&mut self)
        ensures { self.new ≡ filled self.old }
    {
        if self.used < self.most {
            self.used += 1;
        }
    }

    /// So much less is used, down to nothing.
    pub(crate) fn drain(&mut self, count: u32)
        ensures { self.new ≡ drained count self.old }
    {
        self.used = self.used.saturating_sub(count);
    }

    /// How much is free.
    pub(crate) fn free(&self) -> u32
        ensures { result ≡ self.now.most - self.now.used }
    {
        self.most - self.used
    }

    /// So many more are used, unless fewer are free.
    pub(crate) fn fill_by(&mut self, count: u32)
        ensures { self.new ≡ filled_by count self.old }
    {
        if count <= self.free() {
            self.used += count;
        }
    }

    /// So many less are used, down to none.
    pub(crate) fn drain_by(&mut self, count: u32)
        ensures { self.new ≡ drained_by count self.old }
    {
        self.used = self.used.saturating_sub(count);
    }
}

/// How much is used of the gauge of that number.
pub(crate) fn used_at(gauges: &[Gauge], i: u32) -> u32
    ensures { result ≡ (gauge_at gauges.now i).used }
{
    match gauges.get(i as usize) {
        Some(gauge) => gauge.used(),
        None => 0,
    }
}

/// Whether all of the gauge of that number is used; where there is none, there is nothing to use.
pub(crate) fn is_full_at(gauges: &[Gauge], i: u32) -> bool
    ensures used { result ≡ is_full (gauge_at gauges.now i) }
    ensures most { result ≡ nat_le (gauge_at gauges.now i).most (gauge_at gauges.now i).used }
{
    match gauges.get(i as usize) {
        Some(gauge) => gauge.is_full(),
        None => true,
    }
}

/// One more of the gauge of that number is used.
pub(crate) fn fill_at(gauges: &mut Vec<Gauge>, i: u32)
    ensures { gauges.new.items ≡ slice_set gauges.old.items i (filled (gauge_at gauges.old.items i)) }
{
    if let Some(gauge) = gauges.get_mut(i as usize) {
        gauge.fill();
    }
}

/// So much less of the gauge of that number is used.
pub(crate) fn drain_at(gauges: &mut Vec<Gauge>, i: u32, count: u32)
    ensures { gauges.new.items ≡ slice_set gauges.old.items i (drained count (gauge_at gauges.old.items i)) }
{
    if let Some(gauge) = gauges.get_mut(i as usize) {
        gauge.drain(count);
    }
}

/// How much is free of the gauge of that number; nothing where there is none.
pub(crate) fn free_at(gauges: &[Gauge], i: usize) -> u32
    ensures { result ≡ (gauge_at gauges.now i).most - (gauge_at gauges.now i).used }
{
    match gauges.get(i) {
        Some(gauge) => gauge.free(),
        None => 0,
    }
}

/// So many less of the gauge of that number are used.
fn drain_by(gauges: &mut Vec<Gauge>, i: u32, count: u32)
    ensures { gauges.new.items ≡ with_drained gauges.old.items i count }
{
    if let Some(gauge) = gauges.get_mut(i as usize) {
        gauge.drain_by(count);
    }
}

/// So many more of the gauge of that number are used, unless fewer are free.
fn fill_by(gauges: &mut Vec<Gauge>, i: u32, count: u32)
    ensures { gauges.new.items ≡ with_filled gauges.old.items i count }
{
    if let Some(gauge) = gauges.get_mut(i as usize) {
        gauge.fill_by(count);
    }
}

/// What so many use of one gauge they use of another from now on, unless fewer are free there.
pub(crate) fn shift(gauges: &mut Vec<Gauge>, from: u32, to: u32, count: u32)
    ensures { gauges.new.items ≡ shifted gauges.old.items from to count }
{
    drain_by(gauges, from, count);
    fill_by(gauges, to, count);
}
