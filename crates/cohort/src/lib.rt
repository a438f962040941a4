// cohort.kv as tables: the names, and a row of numbers for each site.
#![tactic(auto)]

ghost use Rattle.std.specs.Prelude.{◌&&◌, cond, ◌≡◌, ◌*◌, ◌+◌, ◌≤◌, suc, eqb, length};
ghost use Rattle.std.proofs.lemmas.List.Edits.{sets};
ghost use Rattle.definitions.specs.Answers.{scratch_after};
ghost use Rattle.definitions.specs.Bytes.{same_bytes};
ghost use Rattle.definitions.specs.Limits.{max_samples};
ghost use Rattle.tables.specs.Tables.{column, part_at, with_numbers};
ghost use Rattle.cohort.specs.Cohort.{CohortAt, CohortFitting, ContigsNumbered, SitesAnswered, SitesRead, cohort_answer, cohort_front, first_on, front_answer, loaded_of, row_of, rows_in};

use answers::{LoadError, Refusal};
use site_groups::{SiteAlleles, SitePlace, SiteValues};

// GQ, DP or MIN_DP that is missing, in a row: past every number of a text.
const MISSING: u32 = 4294967295;

fn flag(b: bool) -> usize
    ensures { result ≡ cond b 1 0 }
{
    if b { 1 } else { 0 }
}

// Stores a site's row; where the text has AD and PL, not their numbers. Asks that the row lies in the table.
pub fn put_site(
    rows: &mut [usize],
    site: usize,
    place: SitePlace,
    contig: usize,
    alleles: SiteAlleles,
    values: SiteValues,
    block: bool,
)
    requires { site * 22 + 22 ≤ length rows.old }
    ensures { rows.new ≡ sets rows.old (site * 22) (row_of place contig alleles values block) }
{
    let row = [
        place.sample.get(),
        contig,
        place.start.get() as usize,
        place.end.get() as usize,
        flag(block),
        values.gq.unwrap_or(MISSING) as usize,
        values.dp.unwrap_or(MISSING) as usize
            + values.mindp.unwrap_or(MISSING) as usize * 4294967296,
        place.contig.at,
        place.contig.end,
        alleles.refs.at,
        alleles.refs.end,
        alleles.alts.at,
        alleles.alts.end,
        0,
        values.ad.at,
        values.ad.end,
        0,
        values.pl.at,
        values.pl.end,
        0,
        0,
        0,
    ];
    tables::store_row(rows, site * 22, &row);
}

// Puts the numbers of AD and PL, which stand at the fronts of slices, into a site's row, in place of where the text has them: each
// list that has some, and not more than its slice.
fn put_numbers(rows: &mut [usize], site: usize, values: SiteValues, ad: &[u32], pl: &[u32])
    requires { site * 22 + 22 ≤ length rows.old }
    ensures { rows.new ≡ with_numbers (site * 22 + 16) 5 pl.now values.pl.count
        (with_numbers (site * 22 + 13) 2 ad.now values.ad.count rows.old) }
{
    tables::store_numbers(rows, site * 22 + 13, 2, ad, values.ad.count);
    tables::store_numbers(rows, site * 22 + 16, 5, pl, values.pl.count);
}

// Whether a site is the first on its contig, and that contig has this name.
fn is_first_on(s: &[u8], rows: &[usize], site: usize, contig: &[u8]) -> bool
    ensures { result ≡ eqb (column 1 rows.now site) site && same_bytes contig.now (part_at 7 8 s.now rows.now site) }
{
    if tables::contig_of(rows, site) != site {
        return false;
    }
    let name = tables::contig_name(s, rows, site);
    kv_text::same_bytes(contig, name)
}

// The number of the first site on a contig among so many, or their number if there is none. A name is compared with each contig once.
pub fn contig_number(s: &[u8], rows: &[usize], count: usize, contig: &[u8]) -> usize
    requires { ContigsNumbered s.now rows.now count }
    ensures { result ≡ first_on s.now rows.now count contig.now }
{
    // the rows are read by their numbers, and the count is no slice's length
    for site in 0..count {
        if is_first_on(s, rows, site, contig) {
            return site;
        }
    }
    count
}

// The site groups from an offset on, of a cohort with so many samples: a row for each, from the first row on. How many sites there are; or the
// row that refuses the first faulty group; or the table has no row for a site.
fn read_sites(s: &[u8], at: usize, samples: usize, rows: &mut [usize]) -> Result<usize, LoadError>
    ensures answer { SitesAnswered samples s.now at (length rows.old) result }
    ensures table { SitesRead samples s.now at rows.old rows.new result }
{
    let mut ad = [0u32; 4];
    let mut pl = [0u32; 10];
    let mut next = at;
    let mut count = 0;
    // a group says where the next begins
    while next < s.len() {
        let group = site_groups::site_at(s, next, samples, count, &mut ad, &mut pl)?;
        if rows.len() < count * 22 + 22 {
            return Err(LoadError::NoRoom);
        }
        let place = group.place;
        let values = group.values;
        let name = tables::part(s, place.contig.at, place.contig.end);
        let contig = contig_number(s, rows, count, name);
        put_site(
            rows,
            count,
            place,
            contig,
            group.alleles,
            values,
            group.block,
        );
        put_numbers(rows, count, values, &ad, &pl);
        count += 1;
        next = values.next;
    }
    Ok(count)
}

// How many samples a cohort has, and how many sites.
#[derive(Clone, Copy)]
pub struct CohortSize {
    pub samples: usize,
    pub sites: usize,
}

// The cohort where there is room for the names: its size; or the row that refuses the text; or a table is too short. What stands in the
// tables after a refusal, or where the sites have no room, is open.
fn read_fitting(s: &[u8], names: &mut [usize], rows: &mut [usize]) -> Result<CohortSize, LoadError>
    requires { 2 * max_samples ≤ length names.old }
    ensures answer { loaded_of result ≡ front_answer (rows_in (length rows.old)) (cohort_front (suc (rows_in (length rows.old))) s.now) }
    ensures tables { CohortFitting s.now names.old names.new rows.old rows.new result }
{
    if 16777216 < s.len() {
        return Err(LoadError::Refused(Refusal::Size));
    }
    let header = sample_names::read_samples(s, names)?;
    let samples = header.count;
    let sites = read_sites(s, header.next, samples, rows)?;
    Ok(CohortSize { samples, sites })
}

// Clears both tables.
fn clear_tables(names: &mut [usize], rows: &mut [usize])
    ensures { (rows.new ≡ scratch_after rows.old) × (names.new ≡ scratch_after names.old) }
{
    slices::clear(names, 0);
    slices::clear(rows, 0);
}

// Reads cohort.kv, rows 1 to 8, into the two tables: 128 numbers for names, two each, and 22 numbers for each site, 4,096 at most. If a
// table is too short, or a row refuses the text, both are cleared. The answer is the same for all tables of these lengths.
pub fn read_cohort(
    s: &[u8],
    names: &mut [usize],
    rows: &mut [usize],
) -> Result<CohortSize, LoadError>
    ensures answer { loaded_of result ≡ cohort_answer (length names.old) (length rows.old) s.now }
    ensures tables { CohortAt s.now names.old names.new rows.old rows.new result }
{
    if names.len() < 128 {
        clear_tables(names, rows);
        return Err(LoadError::NoRoom);
    }
    let read = read_fitting(s, names, rows);
    if read.is_err() {
        clear_tables(names, rows);
    }
    read
}
