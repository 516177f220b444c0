// Reading a source to its end, and what is said of it.
use anyhow::anyhow;
use bits::source::Source;
use checked::checked::Checked;
use reading::state::Reading;
use rules::items::{Item, Kind};

// What has been handed out: how many items, the sum of all their numbers, and how many objects are open, now and at
// most.
#[derive(Clone, Copy, Default)]
struct Tally {
    items: u64,
    sum: i64,
    open: u64,
    deepest: u64,
}

impl Tally {
    // With one item more.
    fn with(self, item: Item) -> Tally {
        let open = match item.kind {
            Kind::Value => self.open,
            Kind::Open => self.open.wrapping_add(1),
            Kind::Close => self.open.wrapping_sub(1),
        };
        Tally {
            items: self.items.wrapping_add(1),
            sum: plus(self.sum, item),
            open,
            deepest: self.deepest.max(open),
        }
    }
}

// The sum of an item's numbers and another.
fn plus(sum: i64, item: Item) -> i64 {
    sum.wrapping_add(i64::from(item.kind.number()))
        .wrapping_add(i64::from(item.line))
        .wrapping_add(i64::from(item.class))
        .wrapping_add(i64::from(item.index))
        .wrapping_add(item.value)
        .wrapping_add(i64::from(item.place))
        .wrapping_add(i64::from(item.length))
}

// Reads a source to its end or its fault, and prints how many items there are, the sum of all their numbers, how it
// ends, and how many objects were open at once.
pub(crate) fn read<S: Source + Drop>(
    rt: &HostRuntime,
    name: &str,
    checked: &Checked,
    source: S,
) -> anyhow::Result<()> {
    let mut reading = Reading::open(checked, source);
    let mut tally = Tally::default();
    for _ in 0..u64::MAX {
        match reading.next() {
            Ok(Some(item)) => tally = tally.with(item),
            Ok(None) => {
                println!(rt;
                    "{name}: {} {} end, {} open",
                    tally.items, tally.sum, tally.deepest
                )?;
                return Ok(());
            }
            Err(fault) => {
                println!(rt;
                    "{name}: {} {} refused {fault}, {} open",
                    tally.items, tally.sum, tally.deepest
                )?;
                return Ok(());
            }
        }
    }
    Err(anyhow!("more items than a number can count"))
}
