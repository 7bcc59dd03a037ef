// Numbers by label.
ghost use Rattle.std.specs.Prelude.{◌≡◌, ◌<◌, ◌^◌, OnOk, cond, length, nat_le, pos, remove, set, unsigned_abs};
ghost use Rattle.std.specs.List.{All, position_or_len};
ghost use Rattle.std.specs.Ordering.{int_eq};
ghost use Rattle.plane_chains.specs.Nets.{IsAdded};

use mb_base::NoMemory;

/// A number for a label.
#[derive(Clone, Copy, Debug, PartialEq, Eq, Drop)]
pub struct LabelNumber {
    pub label: u32,
    pub number: i64,
}

/// Adds a number for a label to the numbers of labels, of which those other than 0 are listed, in the order of labels.
pub fn add_number(net: &mut Vec<LabelNumber>, label: u32, number: i64) -> Result<(), NoMemory>
    requires small { All (λ e. unsigned_abs e.number < 2 ^ 62) net.old.items }
    requires number { unsigned_abs number < 2 ^ 62 }
    ensures { OnOk result (IsAdded net.old.items net.new.items label number) }
{
    if number == 0 {
        return Ok(());
    }
    let at = place_of(net, label);
    if at == net.len() || net[at].label != label {
        net.insert(at, LabelNumber { label, number })?;
        return Ok(());
    }
    let sum = net[at].number + number;
    put_number(net, at, LabelNumber { label, number: sum });
    Ok(())
}

// The place of the first number that is for a label or one behind it.
fn place_of(net: &[LabelNumber], label: u32) -> usize
    ensures { result ≡ position_or_len (λ e. nat_le label e.label) net.now }
{
    for (i, each) in net.iter().enumerate() {
        if label <= each.label {
            return i;
        }
    }
    net.len()
}

// Puts another number at a place; none where it is 0.
fn put_number(net: &mut Vec<LabelNumber>, at: usize, each: LabelNumber)
    requires { at < length net.old.items }
    ensures { net.new.items ≡ cond (int_eq each.number (pos 0)) (remove net.old.items at) (set net.old.items at each) }
{
    if each.number == 0 {
        net.remove(at);
    } else {
        net[at] = each;
    }
}
