// The sites found over a position in a list, each with its sample; and from it the row of each sample's own site.
#![tactic(auto)]

ghost use Rattle.std.specs.Prelude.{◌≡◌, ◌<◌, ◌≤◌, get_or, length};
ghost use Rattle.std.proofs.lemmas.List.Edits.{sets};
ghost use Rattle.found_sites.specs.Own.{found_at, found_list, own_rows, put_all};

use bio_ids::SampleIndex;

// A site found over a position: whose it is, and its row in the table, where all its offsets stand.
#[derive(Clone, Copy)]
pub struct Found {
    pub sample: SampleIndex,
    pub row: usize,
}

// The i-th of some sites, with its sample.
fn found_at(sites: &[usize], owners: &[usize], i: usize) -> Found
    requires { (i < length sites.now) × (i < length owners.now) }
    ensures { result ≡ found_at (get_or sites.now i 0) (get_or owners.now i 0) }
{
    let row = sites[i];
    let sample = SampleIndex::new(owners[i]);
    Found { sample, row }
}

// Stores each of some sites, with its sample, in the list.
fn gather(list: &mut [Found], sites: &[usize], owners: &[usize])
    requires { (length owners.now ≤ length list.old) × (length sites.now ≡ length owners.now) }
    ensures { list.new ≡ sets list.old 0 (found_list sites.now owners.now) }
{
    // three lists in step: a zip of them is no plainer
    for i in 0..owners.len() {
        list[i] = found_at(sites, owners, i);
    }
}

// Stores the row of each found site of a list as its sample's entry, if the sample has one, from the last site to the first, so that a
// sample's first one is left.
fn spread(list: &[Found], own: &mut [usize])
    ensures { own.new ≡ put_all list.now own.old }
{
    for found in list.iter().rev() {
        slices::store(own, found.sample.get(), found.row);
    }
}

// The row of each sample's own site: of at most 64 sites the first that is the sample's. The entry of a sample that has none is left
// as it is.
pub fn own_sites(sites: &[usize], owners: &[usize], own: &mut [usize])
    requires { (length owners.now ≤ 64) × (length sites.now ≡ length owners.now) }
    ensures { own.new ≡ own_rows (found_list sites.now owners.now) 0 own.old }
{
    let blank = Found {
        sample: SampleIndex::new(0),
        row: 0,
    };
    let mut list = [blank; 64];
    gather(&mut list, sites, owners);
    spread(&list[..owners.len()], own);
}
