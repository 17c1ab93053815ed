//! The set of a plan's labels, each found without a scan of the others.
ghost use Rattle.std.specs.Prelude.{◌≡◌, ◌++◌, ◌∷◌, [], not, length, if◌then◌else◌, is_ok, IfOk};
ghost use Rattle.ext_plan.specs.Labels.{is_label};
ghost use Rattle.ext_plan_reading.specs.KeyReading.{label_number};

use std::alloc::{AllocFailed, Global};
use std::collections::BTreeMap;
use std::marker::Model;

/// Different labels, numbered from 0 in the order in which they were added. They are found by the
/// order of their bytes and not by a hash: the author of a plan chooses its labels, and could
/// choose many with the same hash.
#[derive(Drop)]
pub(crate) struct Labels<'a> {
    labels: Vec<&'a str>,
    numbers: BTreeMap<&'a str, usize>,
}

impl<'a> Model for Labels<'a> {
    ghost use Rattle.std.specs.Prelude.{ℕ, List, map, ◌≡◌};
    ghost use Rattle.ext_plan_reading.specs.KeyReading.{label_number};
    ghost use Rattle.ext_plan_reading.specs.InnerSketches.{number_in};

    ghost Value = { List (List ℕ) };

    ghost view = { λ l. map (λ label. label.now) l.labels.items };

    ghost invariant = { λ l. (text : List ℕ) → number_in l.numbers text ≡ label_number (map (λ label. label.now) l.labels.items) text };
}

impl<'a> Labels<'a> {
    /// Makes an empty list of labels.
    pub fn new(alloc: Global) -> Labels<'a>
        ensures { result ≡ [] }
    {
        Labels {
            labels: Vec::new(alloc),
            numbers: BTreeMap::new(alloc),
        }
    }

    /// The number of a label, if it was added.
    pub fn number_of(&self, label: &str) -> Option<usize>
        ensures { result ≡ label_number self.now label.now }
    {
        self.numbers.get(label).copied()
    }

    /// How many labels were added.
    pub fn len(&self) -> usize
        ensures { result ≡ length self.now }
    {
        self.labels.len()
    }

    /// Adds a label after the others, and tells whether it is new. A label that was there keeps its
    /// number. If memory is refused the labels are unchanged.
    pub fn add(&mut self, label: &'a str) -> Result<bool, AllocFailed<&'a str>>
        ensures new { IfOk result (λ added. added ≡ not (is_label self.old label.now)) }
        ensures labels { self.new ≡ (if is_ok result then (if is_label self.old label.now then self.old else self.old ++ label.now ∷ []) else self.old) }
    {
        if self.numbers.contains_key(label) {
            return Ok(false);
        }
        let number = self.labels.len();
        self.labels.push(label)?;
        match self.numbers.insert(label, number) {
            Ok(_) => Ok(true),
            Err(failed) => {
                self.labels.pop();
                Err(AllocFailed { value: label })
            }
        }
    }
}
