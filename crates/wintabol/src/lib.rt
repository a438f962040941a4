// The library as Rust programs link it, and its answers as the numbers that C programs get.
#![tactic(auto)]

ghost use Rattle.std.specs.Prelude.{true, map, ◌≡◌, length};
ghost use Rattle.allele_subsetting_pl.specs.UnusedAlts.{UnusedAltsAnswered, likelihood_count_of, outputs, subset_none_above};
ghost use Rattle.answers.specs.Answered.{Answered};
ghost use Rattle.combine_gvcfs.specs.Combined.{Combined, texts_of};
ghost use Rattle.definitions.specs.AlleleSubset.{likelihood_subset, unused_alt_subset_within};
ghost use Rattle.definitions.specs.CalledGenotypes.{gq_from_pl};
ghost use Rattle.definitions.specs.CalledList.{called_list};
ghost use Rattle.definitions.specs.Checked.{within};
ghost use Rattle.definitions.specs.Likelihoods.{log10_from_pl};
ghost use Rattle.definitions.specs.ReverseTrim.{trimmed_alleles};
ghost use Rattle.likelihoods.specs.Written.{NearTenths, count_of, none_above};
ghost use Rattle.position_lookup.specs.Found.{LookUpAnswered};
ghost use Rattle.search_looks.specs.Looked.{LooksAnswered};
ghost use Rattle.wintabol.specs.Exported.{answer, answer_alts, answer_lookup, lookup_numbers, outcome_alts, outcome_numbers};

use allele_subsetting_pl::UnusedAlts;
use answers::Refusal;
use position_lookup::LookedUp;

// ---- the functions

// The combined list of cohort.kv, of clip.kv if `clipped`, and of reference.kv if `has_reference`.
pub fn wintabol_combine<'a>(
    cohort: &'a [u8],
    clipped: bool,
    clip: &[u8],
    has_reference: bool,
    reference: &'a [u8],
    scratch: &mut [u64],
    out: &mut [u8],
) -> Result<usize, Refusal>
    ensures { Combined
        (texts_of cohort.now clipped clip.now has_reference reference.now)
        scratch.old scratch.new out.old out.new result }
{
    combine_gvcfs::combine(
        cohort,
        clipped,
        clip,
        has_reference,
        reference,
        scratch,
        out,
    )
}

// For planning, how many sites the search along a contig looks at, for the texts of `wintabol_combine`: 0 for a contig that no site names.
pub fn wintabol_looks<'a>(
    cohort: &'a [u8],
    clipped: bool,
    clip: &[u8],
    has_reference: bool,
    reference: &'a [u8],
    contig: &[u8],
    scratch: &mut [u64],
) -> Result<usize, Refusal>
    ensures { LooksAnswered
        (texts_of cohort.now clipped clip.now has_reference reference.now)
        contig.now scratch.old scratch.new result }
{
    search_looks::looks(
        cohort,
        clipped,
        clip,
        has_reference,
        reference,
        contig,
        scratch,
    )
}

// For each pair of `asked`, groups of `contig` and `pos` in list order, the number of the record of a combined list whose stretch holds it,
// counted from 0, or 4294967295 for none; how many pairs there are; and how many record groups were read, front to back, up to the last pair.
pub fn wintabol_look_up(list: &[u8], asked: &[u8], out: &mut [u32]) -> Result<LookedUp, Refusal>
    ensures { LookUpAnswered list.now asked.now out.old out.new result }
{
    position_lookup::look_up(list, asked, out)
}

// The called list of a combined list.
pub fn wintabol_call(list: &[u8], out: &mut [u8]) -> Result<usize, Refusal>
    ensures { Answered
        (called_list list.now (length out.old))
        out.old out.new result }
{
    genotype_gvcfs::call(list, out)
}

// The alleles of a comma list, REF first, without their common ending.
pub fn wintabol_reverse_trim_alleles(alleles: &[u8], out: &mut [u8]) -> Result<usize, Refusal>
    ensures { Answered
        (trimmed_alleles alleles.now (length out.old))
        out.old out.new result }
{
    reverse_trim::reverse_trim_alleles(alleles, out)
}

// GQ of a list of PLs.
pub fn wintabol_gq_phred_from_pl(pl: &[u32]) -> u32
    ensures { result ≡ gq_from_pl pl.now }
{
    genotyping::gq_phred_from_pl(pl)
}

// The log10 likelihoods of PLs.
pub fn wintabol_log10_likelihoods_from_pl(pl: &[u32], out: &mut [f64]) -> Result<usize, Refusal>
    ensures answered { Answered
        (within (length out.old) (map log10_from_pl pl.now))
        out.old out.new result }
    ensures near { NearTenths pl.now (count_of result) out.new }
{
    likelihoods::log10_likelihoods_from_pl(pl, out)
}

// Likelihoods over the alleles of a keep list.
pub fn wintabol_subset_log10_genotype_likelihoods(
    gl: &[f64],
    alleles: usize,
    keep: &[usize],
    out: &mut [f64],
) -> Result<usize, Refusal>
    ensures answered { Answered
        (likelihood_subset gl.now alleles keep.now (length out.old))
        out.old out.new result }
    ensures none_above { none_above (count_of result) out.new ≡ true }
{
    allele_subsetting_pl::subset_log10_genotype_likelihoods(gl, alleles, keep, out)
}

// A record without the ALTs that the GT does not name.
pub fn wintabol_subset_unused_alts(
    alts: &[u8],
    gt: &[usize],
    gl: &[f64],
    ad: &[u32],
    alts_out: &mut [u8],
    gl_out: &mut [f64],
    ad_out: &mut [u32],
) -> Result<UnusedAlts, Refusal>
    ensures answered { UnusedAltsAnswered
        (unused_alt_subset_within alts.now gt.now gl.now ad.now
        (length alts_out.old) (length gl_out.old) (length ad_out.old))
        (outputs alts_out.old gl_out.old ad_out.old)
        (outputs alts_out.new gl_out.new ad_out.new)
        result }
    ensures none_above { subset_none_above alts.now gt.now (likelihood_count_of result) gl_out.new ≡ true }
{
    allele_subsetting_pl::subset_unused_alts_after_merged_genotyping(
        alts, gt, gl, ad, alts_out, gl_out, ad_out,
    )
}

// ---- their answers as numbers: the row that refuses the call, 0 for none; and what is stored, 0 where the call is refused

// A number, or why there is none, as two numbers.
pub fn give(outcome: Result<usize, Refusal>, written: &mut usize) -> usize
    ensures { outcome_numbers outcome ≡ answer result written.new }
{
    match outcome {
        Ok(count) => {
            *written = count;
            0
        }
        Err(refusal) => {
            *written = 0;
            refusal.row()
        }
    }
}

// How many pairs were looked up and how many record groups were read, or why none were, as three numbers.
pub fn give_lookup(answer: Result<LookedUp, Refusal>, pairs: &mut usize, groups: &mut u32) -> usize
    ensures { lookup_numbers answer ≡ answer_lookup result pairs.new groups.new }
{
    match answer {
        Ok(looked) => {
            *pairs = looked.pairs;
            *groups = looked.groups;
            0
        }
        Err(refusal) => {
            *pairs = 0;
            *groups = 0;
            refusal.row()
        }
    }
}

// An outcome with three outputs as four numbers.
pub fn give_alts(
    outcome: Result<UnusedAlts, Refusal>,
    alts: &mut usize,
    gl: &mut usize,
    ad: &mut usize,
) -> usize
    ensures { outcome_alts outcome ≡ answer_alts result alts.new gl.new ad.new }
{
    match outcome {
        Ok(written) => {
            *alts = written.alts;
            *gl = written.likelihoods;
            *ad = written.ad;
            0
        }
        Err(refusal) => {
            *alts = 0;
            *gl = 0;
            *ad = 0;
            refusal.row()
        }
    }
}
