// What came of the cuts.
use crate::plan::{CUTS, cut_again};
use crate::unit::Unit;
use stops::Stop;

// How often the power-up resumed, found nothing recorded, sounded the alert or was cut again; the most restarts; the pages erased; after which
// cuts something was not as the book has it.
#[derive(Clone, Copy)]
pub struct Tally {
    resumed: usize,
    empty: usize,
    alerts: usize,
    again: usize,
    most: u8,
    erased: usize,
    differs: [bool; CUTS],
}

// One more.
fn count(n: &mut usize) {
    *n = n.saturating_add(1);
}

impl Tally {
    pub fn new() -> Tally {
        Tally {
            resumed: 0,
            empty: 0,
            alerts: 0,
            again: 0,
            most: 0,
            erased: 0,
            differs: [false; CUTS],
        }
    }

    // Counts what came of cut k, 1 to 40.
    pub fn count(&mut self, k: usize, unit: &Unit) {
        self.erased = unit.erased;
        if let Some(differs) = self.differs.get_mut(k.wrapping_sub(1)) {
            *differs = !unit.agrees;
        }
        if cut_again(k) {
            count(&mut self.again);
            return;
        }
        match unit.stop {
            None => {
                count(&mut self.resumed);
                self.most = self.most.max(unit.restarts());
            }
            Some(Stop::RingBlank) => count(&mut self.empty),
            Some(_) => count(&mut self.alerts),
        }
    }

    pub fn print(&self, rt: &impl Print, cuts: usize) {
        let _ = print!(rt;
            "\ncuts {cuts}: resumed {}, nothing recorded {}, alerts {}, power-up cut again {}",
            self.resumed, self.empty, self.alerts, self.again,
        );
        let _ = print!(rt;
            "\nrestarts at the most {}, pages erased {}\n",
            self.most, self.erased,
        );
        for (i, differs) in self.differs.iter().enumerate() {
            if *differs {
                let _ = print!(rt; "not as the book has it: cut {}\n", i + 1);
            }
        }
        if !self.differs.contains(&true) {
            let _ = print!(rt;
                "every power-up resumed the checkpoint recorded last, or stopped as it must\n"
            );
        }
    }
}
