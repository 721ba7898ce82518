// What is written one after another: stations, nodes and rules.
ghost use Rattle.std.specs.Prelude.{◌≡◌, ℕ, ◌≤◌, ◌++◌, List, length, drop, refl};
ghost use Rattle.std.specs.List.{flat_map};
ghost use Rattle.sheet.specs.declared.form.Rule.TheVariants.{Plain, Conditional};
ghost use Rattle.writing.specs.Written.{station_bytes, node_bytes, rule_bytes};

use sheet::{Fields, Node, Rule};

// What has a record of its own, of N bytes.
pub(crate) trait Entry<const N: usize> {
    // the bytes of the record
    ghost bytes: { Self → List ℕ };

    // The record, mark included.
    fn record(&self) -> [u8; N]
        ensures { result ≡ bytes self.now };

    // each record has that many bytes
    ghost sized: { (x : Self) → length (bytes x) ≡ N };
}

impl Entry<10> for u64 {
    ghost bytes = { station_bytes };

    ghost sized = { λ _. refl };

    fn record(&self) -> [u8; 10] {
        let [a, b, c, d, e, f, g, h] = self.to_be_bytes();
        [b'S', b'T', a, b, c, d, e, f, g, h]
    }
}

impl Entry<7> for Node {
    ghost bytes = { node_bytes };

    ghost sized = { λ _. refl };

    fn record(&self) -> [u8; 7] {
        let Fields { kind, a, b, k } = Fields::from(self.form);
        let [high, low] = k.to_be_bytes();
        [b'N', b'D', kind, a, b, high, low]
    }
}

impl Entry<7> for Rule {
    ghost bytes = { rule_bytes };

    ghost sized = { elim [ Plain _ ↦ refl | Conditional _ _ ↦ refl ] };

    fn record(&self) -> [u8; 7] {
        match *self {
            Rule::Plain(c) => [b'R', b'U', 0, c.station, c.range, 0, 0],
            Rule::Conditional(c, d) => [b'R', b'U', 1, c.station, c.range, d.station, d.range],
        }
    }
}

// Puts the records of all items one behind another at the front of a buffer, and says how many bytes they are.
pub(crate) fn put_all<const N: usize, T: Entry<N>>(items: &[T], out: &mut [u8]) -> usize
    requires { length (flat_map T.bytes items.now) ≤ length out.old }
    ensures put { out.new ≡ flat_map T.bytes items.now ++ drop (length (flat_map T.bytes items.now)) out.old }
    ensures end { result ≡ length (flat_map T.bytes items.now) }
{
    // Where the next record goes is kept by hand: behind a loop over chunks of the buffer nothing is known of their bytes.
    let mut end = 0;
    for item in items {
        let record = item.record();
        out[end..end + N].copy_from_slice(&record);
        end += N;
    }
    end
}
