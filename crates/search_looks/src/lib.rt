// The looks of a contig, for planning: how many sites the search for covering sites looks at along it. The texts are read as the list's
// are, and every row that refuses the list, but 14, refuses here too.
#![tactic(auto)]

ghost use Rattle.std.specs.Prelude.{◌≤◌, length, ◌≡◌};
ghost use Rattle.answers.specs.Answered.{checked_of};
ghost use Rattle.combine_gvcfs.specs.Combined.{TextsFit, texts_of};
ghost use Rattle.combined_list.specs.WrittenList.{ListsFit};
ghost use Rattle.definitions.specs.Looks.{contig_looks, looks_of};
ghost use Rattle.search_looks.specs.Looked.{ContigsReady, FirstReady, LooksAnswered, SitesReady, TablesReady, looks_with};
ghost use Rattle.tables.specs.Tables.{part_at};

use answers::{LoadError, Refusal};

// The looks of a contig, which is named by the number of its first site. `chosen` takes the numbers of its sites.
fn first_looks(
    s: &[u8],
    rows: &[usize],
    samples: usize,
    clipped: bool,
    clip: &[u8],
    first: usize,
    order: &[u64],
    runs: &[usize],
    chosen: &mut [usize],
    scratch: &mut [u64],
) -> usize
    requires { FirstReady s.now rows.now samples clipped clip.now first order.now runs.now × (length order.now ≤ length chosen.old) × (2 ≤ length scratch.old) }
    ensures { (ready : FirstReady s.now rows.now samples clipped clip.now first order.now runs.now)
        → result ≡ contig_looks ready.tables.loaded.input (part_at 7 8 s.now rows.now first) }
{
    let mut bounds = [0usize; 65];
    covering_sites::select_contig(rows, order, runs, samples, first, chosen, &mut bounds);
    let count = bounds[samples];
    let contig = tables::contig_name(s, rows, first);
    let spans = combined_list::given_clip(clipped, clip);
    contig_looks::contig_looks(rows, &chosen[..count], clipped, spans, contig, scratch)
}

// The looks of the contig that is asked for: 0 if no site names it.
fn asked_looks(
    s: &[u8],
    rows: &[usize],
    samples: usize,
    sites: usize,
    clipped: bool,
    clip: &[u8],
    contig: &[u8],
    order: &[u64],
    runs: &[usize],
    chosen: &mut [usize],
    scratch: &mut [u64],
) -> usize
    requires { SitesReady s.now rows.now samples sites clipped clip.now order.now runs.now × (length order.now ≤ length chosen.old) × (2 ≤ length scratch.old) }
    ensures { (ready : SitesReady s.now rows.now samples sites clipped clip.now order.now runs.now)
        → result ≡ contig_looks ready.tables.loaded.input contig.now }
{
    let first = cohort::contig_number(s, rows, sites, contig);
    if sites <= first {
        return 0;
    }
    first_looks(
        s, rows, samples, clipped, clip, first, order, runs, chosen, scratch,
    )
}

// The figure of an input in order, from its contigs and its grouped sites: rows 11 to 13. All contigs are walked over before the figure is
// taken, on an empty output: a row refuses the figure of any contig.
fn contigs_looks<'a>(
    s: &'a [u8],
    rows: &[usize],
    samples: usize,
    sites: usize,
    clipped: bool,
    clip: &[u8],
    referenced: bool,
    reference: &'a [u8],
    contig: &[u8],
    contigs: &[usize],
    order: &[u64],
    runs: &[usize],
    chosen: &mut [usize],
    scratch: &mut [u64],
) -> Result<usize, Refusal>
    requires { ContigsReady s.now rows.now samples sites clipped clip.now referenced reference.now contigs.now order.now runs.now × (length order.now ≤ length chosen.old) × (2 ≤ length scratch.old) }
    ensures { (ready : ContigsReady s.now rows.now samples sites clipped clip.now referenced reference.now contigs.now order.now runs.now)
        → checked_of result ≡ looks_with ready.list.tables.loaded.input 1 contig.now }
{
    let mut held = [0u8; 8192];
    let mut fresh = [0u8; 8192];
    let mut alts = [0u8; 4096];
    let mut out = [0u8; 1];
    combined_list::walk_contigs(
        s,
        rows,
        samples,
        clipped,
        clip,
        referenced,
        reference,
        contigs,
        order,
        runs,
        chosen,
        scratch,
        &mut held,
        &mut fresh,
        &mut alts,
        &mut out[..0],
        0,
    )?;
    Ok(asked_looks(
        s, rows, samples, sites, clipped, clip, contig, order, runs, chosen, scratch,
    ))
}

// The figure of an input in order, from its tables, with places for a window of breakpoints: rows 11 to 13.
fn looks_in_windows<'a>(
    s: &'a [u8],
    rows: &[usize],
    samples: usize,
    sites: usize,
    clipped: bool,
    clip: &[u8],
    referenced: bool,
    reference: &'a [u8],
    contig: &[u8],
    order: &mut [u64],
    firsts: &mut [usize],
    chosen: &mut [usize],
    scratch: &mut [u64],
) -> Result<usize, Refusal>
    requires { TablesReady s.now rows.now samples sites clipped clip.now referenced reference.now × ListsFit sites order.old firsts.old chosen.old × (2 ≤ length scratch.old) }
    ensures { (ready : TablesReady s.now rows.now samples sites clipped clip.now referenced reference.now)
        → checked_of result ≡ looks_with ready.call.loaded.input 1 contig.now }
{
    let mut runs = [0usize; 65];
    covering_sites::group_by_sample(rows, sites, samples, order, &mut runs);
    let count = contigs::order_contigs(s, rows, sites, firsts);
    contigs_looks(
        s,
        rows,
        samples,
        sites,
        clipped,
        clip,
        referenced,
        reference,
        contig,
        &firsts[..count],
        order,
        &runs,
        chosen,
        scratch,
    )
}

// The figure of an input in order, from its tables: rows 10 to 13. As for the list, fewer than 1,024 places are left aside for as many
// of its own.
fn loaded_looks<'a>(
    s: &'a [u8],
    rows: &[usize],
    samples: usize,
    sites: usize,
    clipped: bool,
    clip: &[u8],
    referenced: bool,
    reference: &'a [u8],
    contig: &[u8],
    order: &mut [u64],
    firsts: &mut [usize],
    chosen: &mut [usize],
    scratch: &mut [u64],
) -> Result<usize, Refusal>
    requires { TablesReady s.now rows.now samples sites clipped clip.now referenced reference.now × ListsFit sites order.old firsts.old chosen.old }
    ensures { (ready : TablesReady s.now rows.now samples sites clipped clip.now referenced reference.now)
        → checked_of result ≡ looks_with ready.call.loaded.input (length scratch.old) contig.now }
{
    if combined_list::lacks_place(scratch, sites) {
        return Err(Refusal::Scratch);
    }
    if 1024 <= scratch.len() {
        return looks_in_windows(
            s, rows, samples, sites, clipped, clip, referenced, reference, contig, order, firsts,
            chosen, scratch,
        );
    }
    let mut own = [0u64; 1024];
    looks_in_windows(
        s, rows, samples, sites, clipped, clip, referenced, reference, contig, order, firsts,
        chosen, &mut own,
    )
}

// The figure of texts that are short enough, by way of tables for 4,096 sites: rows 1 to 13.
fn fitting_looks<'a>(
    cohort: &'a [u8],
    clipped: bool,
    clip: &[u8],
    referenced: bool,
    reference: &'a [u8],
    contig: &[u8],
    scratch: &mut [u64],
) -> Result<usize, Refusal>
    requires { TextsFit cohort.now clipped clip.now referenced reference.now }
    ensures { checked_of result ≡ looks_of (texts_of cohort.now clipped clip.now referenced reference.now) (length scratch.old) contig.now }
{
    let mut names = [0usize; 128];
    let mut rows = [0usize; 95234];
    let mut order = [0u64; 4096];
    let mut firsts = [0usize; 4096];
    let mut chosen = [0usize; 4096];
    let read = combine_gvcfs::read_texts(
        cohort, clipped, clip, referenced, reference, &mut names, &mut rows,
    );
    match read {
        Err(error) => match error {
            LoadError::NoRoom => Err(Refusal::Size),
            LoadError::Refused(refusal) => Err(refusal),
        },
        Ok(size) => loaded_looks(
            cohort,
            &rows,
            size.samples,
            size.sites,
            clipped,
            clip,
            referenced,
            reference,
            contig,
            &mut order,
            &mut firsts,
            &mut chosen,
            scratch,
        ),
    }
}

// The figure of the texts: rows 1 to 13.
fn texts_looks<'a>(
    cohort: &'a [u8],
    clipped: bool,
    clip: &[u8],
    referenced: bool,
    reference: &'a [u8],
    contig: &[u8],
    scratch: &mut [u64],
) -> Result<usize, Refusal>
    ensures { checked_of result ≡ looks_of (texts_of cohort.now clipped clip.now referenced reference.now) (length scratch.old) contig.now }
{
    if !combine_gvcfs::all_short(cohort, clipped, clip, referenced, reference) {
        return Err(Refusal::Size);
    }
    fitting_looks(
        cohort, clipped, clip, referenced, reference, contig, scratch,
    )
}

// The library's entry for planning: the looks of a contig, for cohort.kv, clip.kv if it is lent, and reference.kv if it is lent. A text that
// is not lent is not looked at. The answer is the figure, 0 for a contig that no site names, or the row that refuses the call. Scratch is
// zero at the end.
pub fn looks<'a>(
    cohort: &'a [u8],
    clipped: bool,
    clip: &[u8],
    referenced: bool,
    reference: &'a [u8],
    contig: &[u8],
    scratch: &mut [u64],
) -> Result<usize, Refusal>
    ensures { LooksAnswered (texts_of cohort.now clipped clip.now referenced reference.now) contig.now scratch.old scratch.new result }
{
    let looked = texts_looks(
        cohort, clipped, clip, referenced, reference, contig, scratch,
    );
    slices::clear(scratch, 0);
    looked
}
