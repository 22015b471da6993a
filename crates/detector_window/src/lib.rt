// The eleven runs of a window, and `get_bullseye_metadata` of detector.rs. The last runs are kept by the columns where they start, in a ring of
// sixteen, so that nothing is shifted.
#![tactic(auto)]

ghost use Rattle.std.specs.Prelude.{◌≡◌, ◌+◌, ◌^◌, ◌≤◌, ◌<◌, ◌%◌, length, get_or, replicate};
ghost use Rattle.reads.specs.Total.{total};
ghost use Rattle.detector_window.specs.Window.{metadata};
ghost use Rattle.detector_window.specs.Ring.{colour, buckets_of, started, closed_by};

// A window of eleven runs that passed: its centre and radius, and its runs.
#[derive(Clone, Copy)]
pub struct Bullseye {
    pub center: u32,
    pub radius: u32,
    pub buckets: [u32; 11],
}

// The window that closed at a column.
pub fn get_bullseye_metadata(buckets: [u32; 11], column: u32) -> Bullseye
    requires { (length buckets ≡ 11) × (total buckets ≤ column) × (column + 1 < 2 ^ 32) }
    ensures { result ≡ metadata buckets column }
{
    let radius = (buckets.iter().sum::<u32>() + 1) / 2;
    Bullseye {
        center: column - radius,
        radius,
        buckets,
    }
}

// The runs of a row: the present one, and where it and the fifteen before it start. Run 0 is black, and then the colours take turns.
#[derive(Clone, Copy)]
pub struct Ring {
    pub starts: [u32; 16],
    pub present: u32,
}

impl Ring {
    // Run 0, from a column on.
    pub fn new(start: u32) -> Ring
        ensures { (result.starts ≡ replicate 16 start) × (result.present ≡ 0) }
    {
        Ring {
            starts: [start; 16],
            present: 0,
        }
    }

    // The next run, from a column on.
    pub fn push(&mut self, start: u32)
        requires { self.old.present + 1 < 2 ^ 32 }
        ensures { (self.new.starts ≡ started self.old.starts self.old.present start) × (self.new.present ≡ self.old.present + 1) }
    {
        self.present += 1;
        self.starts[(self.present % 16) as usize] = start;
    }

    // Whether the present run is black.
    pub fn is_black(&self) -> bool
        ensures { result ≡ colour self.now.present }
    {
        self.present % 2 == 0
    }

    // Where run j starts, the present one or one of the fifteen before it.
    fn start(&self, j: usize) -> u32
        ensures { result ≡ get_or self.now.starts (j % 16) 0 }
    {
        self.starts[j % 16]
    }

    // The lengths of the last eleven runs, of which the present one ends before a column.
    fn buckets(&self, end: u32) -> [u32; 11]
        requires { 10 ≤ self.now.present }
        ensures { result ≡ buckets_of self.now.starts self.now.present end }
    {
        let first = (self.present - 10) as usize;
        let mut buckets = [0; 11];
        for i in 0..10 {
            buckets[i] = self
                .start(first + i + 1)
                .saturating_sub(self.start(first + i));
        }
        buckets[10] = end.saturating_sub(self.start(first + 10));
        buckets
    }

    // The eleven runs of the window that closes at a column, the first of the run after the present one, if one closes there: the last of them is
    // black, and the widths pass.
    pub fn closed_by(&self, end: u32) -> Option<[u32; 11]>
        ensures { result ≡ closed_by self.now.starts self.now.present end }
    {
        let black = self.is_black();
        if self.present < 10 || !black {
            return None;
        }
        let buckets = self.buckets(end);
        if detector_widths::validate_bullseye_widths(&buckets) {
            Some(buckets)
        } else {
            None
        }
    }
}
