// Whether each leaf bin can be sorted by a group: it, or a bin above it, is of that group.

ghost use Rattle.std.specs.Prelude.{◌≡◌, length};
ghost use Rattle.bins.specs.Sorting.{sort_bin_above, unsorted, first_unsorted};

use plan::{Bin, first_of_group};

// Whether a bin of the group stands at or above the bin of this number.
fn has_sort_bin(bins: &[Bin], group: usize, i: usize) -> bool
    ensures { result ≡ sort_bin_above bins.now group (length bins.now) i }
{
    first_of_group(bins, group, i).is_some()
}

fn is_unsorted(bins: &[Bin], group: usize, i: usize, bin: &Bin) -> bool
    ensures { result ≡ unsorted bins.now group i bin.now }
{
    bin.leaf && !has_sort_bin(bins, group, i)
}

// The place of the first leaf bin that has no bin of the group at or above it.
pub fn first_unsorted(bins: &[Bin], group: usize) -> Option<usize>
    ensures { result ≡ first_unsorted bins.now group }
{
    bins.iter()
        .enumerate()
        .find(|(i, bin)| is_unsorted(bins, group, *i, bin))
        .map(|(_, bin)| bin.name.place)
}
