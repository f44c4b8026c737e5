// Where each reading stands to an order of the versions.
ghost use Rattle.std.specs.Prelude.{◌≤◌, length};

use outer_reads::{Reading, Writing};
use std::alloc::{AllocError, Global};
use std::collections::HashMap;
use trace_edges::Hint;
use trace_rules::Version;

/// For each reading, as many and in their order. All are hints: whoever uses them tests them.
#[derive(Drop)]
pub struct Hints {
    /// The place of what was read; where nothing was, of the key's first version or the first one of a greater key.
    pub places: Vec<usize>,
    /// What stands behind it.
    pub next: Vec<Hint>,
    /// A version by another writer that read the same; where nothing was read, the key's first one by another.
    pub heirs: Vec<Hint>,
}

/// The hints for these reads and these versions, which are sorted by key. AllocError where memory is refused.
pub fn hints_of(
    alloc: Global,
    readings: &[Reading],
    order: &[Writing],
) -> Result<Hints, AllocError> {
    let stands = places_of_versions(alloc, order)?;
    let readers = places_of_readings(alloc, readings)?;
    let heirs = Heirs::new(alloc, readings, order, &readers)?;
    let mut hints = Hints {
        places: Vec::new(alloc),
        next: Vec::new(alloc),
        heirs: Vec::new(alloc),
    };
    for reading in readings {
        let place = place_of(&stands, order, *reading);
        let next = behind(reading.answer, place);
        let heir = heirs.heir_of(*reading, order, next);
        hints.places.push(place)?;
        let own = place_in(&stands, (reading.txn, reading.key), order.len());
        hints.next.push(hint_at(&readers, order, next, own))?;
        hints.heirs.push(hint_at(&readers, order, heir, own))?;
    }
    Ok(hints)
}

fn hint_at(
    readers: &HashMap<(usize, u64), usize>,
    order: &[Writing],
    next: usize,
    own: usize,
) -> Hint {
    Hint {
        next,
        witness: witness_of(readers, order, next),
        own,
    }
}

/// Of each version the places of the first and of the last one whose writer read it.
#[derive(Drop)]
struct Heirs {
    first: HashMap<(usize, u64), usize>,
    last: HashMap<(usize, u64), usize>,
}

impl Heirs {
    fn new(
        alloc: Global,
        readings: &[Reading],
        order: &[Writing],
        readers: &HashMap<(usize, u64), usize>,
    ) -> Result<Heirs, AllocError> {
        let mut heirs = Heirs {
            first: HashMap::new(alloc),
            last: HashMap::new(alloc),
        };
        for place in 0..order.len() {
            let version = order[place];
            if let Some(from) = read_from(readings, readers, version) {
                heirs.add((from, version.key), place)?;
            }
        }
        Ok(heirs)
    }

    fn add(&mut self, version: (usize, u64), place: usize) -> Result<(), AllocError> {
        if !self.first.contains_key(&version) {
            self.first.insert(version, place)?;
        }
        self.last.insert(version, place)?;
        Ok(())
    }

    fn heir_of(&self, reading: Reading, order: &[Writing], next: usize) -> usize {
        match reading.answer {
            None => {
                if is_of(order, next, reading.txn) {
                    next.saturating_add(1)
                } else {
                    next
                }
            }
            Some(found) => self.other_heir((found.from, reading.key), order, reading.txn),
        }
    }

    fn other_heir(&self, version: (usize, u64), order: &[Writing], reader: usize) -> usize {
        let first = place_in(&self.first, version, order.len());
        if is_of(order, first, reader) {
            place_in(&self.last, version, order.len())
        } else {
            first
        }
    }
}

fn place_in(places: &HashMap<(usize, u64), usize>, version: (usize, u64), past: usize) -> usize {
    match places.get(&version) {
        None => past,
        Some(place) => *place,
    }
}

/// Whether the version at the place is the transaction's.
fn is_of(order: &[Writing], place: usize, txn: usize) -> bool {
    match order.get(place) {
        None => false,
        Some(version) => version.txn == txn,
    }
}

/// Whose version the writer had read of the key before.
fn read_from(
    readings: &[Reading],
    readers: &HashMap<(usize, u64), usize>,
    version: Writing,
) -> Option<usize> {
    match readers.get(&(version.txn, version.key)) {
        None => None,
        Some(reading) => source_at(readings, *reading),
    }
}

fn source_at(readings: &[Reading], place: usize) -> Option<usize> {
    match readings.get(place) {
        None => None,
        Some(reading) => match reading.answer {
            None => None,
            Some(found) => Some(found.from),
        },
    }
}

fn places_of_versions(
    alloc: Global,
    order: &[Writing],
) -> Result<HashMap<(usize, u64), usize>, AllocError> {
    let mut places = HashMap::new(alloc);
    for place in 0..order.len() {
        let version = order[place];
        places.insert((version.txn, version.key), place)?;
    }
    Ok(places)
}

fn places_of_readings(
    alloc: Global,
    readings: &[Reading],
) -> Result<HashMap<(usize, u64), usize>, AllocError> {
    let mut places = HashMap::new(alloc);
    for place in 0..readings.len() {
        let reading = readings[place];
        places.insert((reading.txn, reading.key), place)?;
    }
    Ok(places)
}

/// For each reading the place of what was read, as in the hints. AllocError where memory is refused.
pub fn places_of(
    alloc: Global,
    readings: &[Reading],
    order: &[Writing],
) -> Result<Vec<usize>, AllocError> {
    let stands = places_of_versions(alloc, order)?;
    let mut places = Vec::new(alloc);
    for reading in readings {
        places.push(place_of(&stands, order, *reading))?;
    }
    Ok(places)
}

fn place_of(stands: &HashMap<(usize, u64), usize>, order: &[Writing], reading: Reading) -> usize {
    match reading.answer {
        None => first_at(order, reading.key),
        Some(found) => match stands.get(&(found.from, reading.key)) {
            None => order.len(),
            Some(place) => *place,
        },
    }
}

fn behind(answer: Option<Version>, place: usize) -> usize {
    match answer {
        None => place,
        Some(_) => place.saturating_add(1),
    }
}

/// The reading by which the writer of the version at the place read its key.
fn witness_of(readers: &HashMap<(usize, u64), usize>, order: &[Writing], place: usize) -> usize {
    match order.get(place) {
        None => 0,
        Some(version) => match readers.get(&(version.txn, version.key)) {
            None => 0,
            Some(reading) => *reading,
        },
    }
}

/// The place of the first version of the key or a greater one, in an order in which keys do not fall.
fn first_at(order: &[Writing], key: u64) -> usize {
    let mut low = 0;
    let mut high = order.len();
    while low < high {
        let middle = low + (high - low) / 2;
        if order[middle].key < key {
            low = middle + 1;
        } else {
            high = middle;
        }
    }
    low
}

/// The number at the place; 0 past the end.
pub fn number_at(numbers: &[usize], place: usize) -> usize {
    match numbers.get(place) {
        None => 0,
        Some(number) => *number,
    }
}
