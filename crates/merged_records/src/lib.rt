// The record at a position: the sites that cover it, REF and the ALTs, in lists that the caller lends.
#![tactic(auto)]

ghost use Rattle.std.specs.Prelude.{◌≡◌, ◌≤◌, length, take};
ghost use Rattle.std.proofs.lemmas.List.Edits.{sets};
ghost use Rattle.covering_sites.specs.Ended.{Ended};
ghost use Rattle.merged_alleles.specs.SoundSites.{SoundSites};
ghost use Rattle.merged_ref.specs.Answers.{ref_bytes};
ghost use Rattle.merged_records.specs.Found.{AltsFound, Over, RecordFound, RecordRoom, some_record};
ghost use Rattle.merged_records.specs.Loaded.{ContigRuns, covering_numbers, covering_owners};

use answers::Refusal;
use bio_ids::GenomePosition;
use merged_alleles::AltList;
use merged_ref::RefAt;

// A record: how many sites are found, where REF stands, and its ALTs.
#[derive(Clone, Copy)]
pub struct FoundRecord {
    pub sites: usize,
    pub reference: RefAt,
    pub alts: AltList,
}

// The record with this REF over these sites, its ALTs laid; row 13 if they are too many.
fn alts_at<'a>(
    s: &'a [u8],
    rows: &[usize],
    reference: &'a [u8],
    position: GenomePosition,
    at: RefAt,
    found: &[usize],
    alts: &mut [u8],
) -> Result<FoundRecord, Refusal>
    requires { (4096 ≤ length alts.old) × SoundSites s.now rows.now found.now (ref_bytes s.now reference.now at) }
    ensures { AltsFound s.now rows.now reference.now position.0 at found.now alts.new result }
{
    let allele = merged_ref::ref_bytes(s, reference, b"N", Some(at));
    let laid = merged_alleles::collect_target_alleles(s, rows, found, position, allele, alts);
    let list = laid.ok_or(Refusal::TooManyAlleles)?;
    Ok(FoundRecord {
        sites: found.len(),
        reference: at,
        alts: list,
    })
}

// The record of a contig at a position that these sites cover. Row 11, 12 or 13 refuses it.
fn record_over<'a>(
    s: &'a [u8],
    rows: &[usize],
    samples: usize,
    referenced: bool,
    reference: &'a [u8],
    contig: &[u8],
    position: GenomePosition,
    found: &[usize],
    alts: &mut [u8],
) -> Result<FoundRecord, Refusal>
    requires { (4096 ≤ length alts.old) × Over s.now rows.now samples referenced reference.now contig.now position.0 found.now }
    ensures { (over : Over s.now rows.now samples referenced reference.now contig.now position.0 found.now)
        → RecordFound over.on position.0 (λ _. found.now) alts.new (some_record result) }
{
    let at = merged_ref::determine_reference_allele(
        s, rows, found, referenced, reference, contig, position,
    )?;
    alts_at(s, rows, reference, position, at, found, alts)
}

// The record of a contig at a position, none if no site covers it, from the contig's sites in runs by sample, each searched from a place behind sites that ended
// before the position. `found` holds the numbers of the covering sites, whatever the answer, and `owners` their samples; behind them both
// are as they were. `alts` is a work buffer: of a record its beginning is the ALTs' text (`RecordTo`), and nothing is promised of the
// rest, as in `collect_target_alleles`.
pub fn merge_reference_confidence<'a>(
    s: &'a [u8],
    rows: &[usize],
    samples: usize,
    referenced: bool,
    reference: &'a [u8],
    contig: &[u8],
    chosen: &[usize],
    from: &[usize],
    bounds: &[usize],
    position: GenomePosition,
    found: &mut [usize],
    owners: &mut [usize],
    alts: &mut [u8],
) -> Result<Option<FoundRecord>, Refusal>
    requires { ContigRuns s.now rows.now samples referenced reference.now contig.now chosen.now bounds.now × RecordRoom samples found.old owners.old alts.old × Ended rows.now chosen.now bounds.now from.now samples position.0 }
    ensures answer { (at : ContigRuns s.now rows.now samples referenced reference.now contig.now chosen.now bounds.now)
        → RecordFound at.on position.0 (λ n. take n found.new) alts.new result }
    ensures sites { (at : ContigRuns s.now rows.now samples referenced reference.now contig.now chosen.now bounds.now)
        → found.new ≡ sets found.old 0 (covering_numbers at.on position.0) }
    ensures owners { (at : ContigRuns s.now rows.now samples referenced reference.now contig.now chosen.now bounds.now)
        → owners.new ≡ sets owners.old 0 (covering_owners at.on position.0) }
{
    let n = covering_sites::covering_sites(
        rows, chosen, from, bounds, samples, position, found, owners,
    );
    if n == 0 {
        return Ok(None);
    }
    Ok(Some(record_over(
        s,
        rows,
        samples,
        referenced,
        reference,
        contig,
        position,
        &found[..n],
        alts,
    )?))
}
