// The library as C programs link it: each function of `wintabol`, exported under its name and by the C calling convention. A slice crosses as a
// pointer and a number of elements, and an answer as numbers, as C has no `Result`; include/wintabol.h declares the functions. Each function
// that writes answers the number of the row that refuses the call, 0 for none, and stores how many values it wrote.
#![tactic(auto)]

ghost use Rattle.std.specs.Prelude.{true, map, ◌≡◌, length};
ghost use Rattle.allele_subsetting_pl.specs.UnusedAlts.{outputs, subset_none_above};
ghost use Rattle.combine_gvcfs.specs.Combined.{texts_of};
ghost use Rattle.definitions.specs.AlleleSubset.{likelihood_subset, unused_alt_subset_within};
ghost use Rattle.definitions.specs.CalledGenotypes.{gq_from_pl};
ghost use Rattle.definitions.specs.CalledList.{called_list};
ghost use Rattle.definitions.specs.Checked.{within};
ghost use Rattle.definitions.specs.Likelihoods.{log10_from_pl};
ghost use Rattle.definitions.specs.LookUp.{look_up_within};
ghost use Rattle.definitions.specs.ReverseTrim.{trimmed_alleles};
ghost use Rattle.likelihoods.specs.Written.{NearTenths, none_above};
ghost use Rattle.wintabol.specs.Exported.{Exported, ExportedAlts, ExportedList, ExportedLookUp, ExportedLooks};

// The combined list of cohort.kv, of clip.kv if `clipped`, and of reference.kv if `has_reference`.
#[unsafe(no_mangle)]
pub extern "C" fn wintabol_combine<'a>(
    cohort: &'a [u8],
    clipped: bool,
    clip: &[u8],
    has_reference: bool,
    reference: &'a [u8],
    scratch: &mut [u64],
    out: &mut [u8],
    written: &mut usize,
) -> usize
    ensures { ExportedList
        (texts_of cohort.now clipped clip.now has_reference reference.now)
        scratch.old scratch.new out.old out.new result written.new }
{
    let outcome = wintabol::wintabol_combine(
        cohort,
        clipped,
        clip,
        has_reference,
        reference,
        scratch,
        out,
    );
    wintabol::give(outcome, written)
}

// For planning, how many sites the search along a contig looks at, for the texts of `wintabol_combine`. The figure is 0 for a contig that no
// site names, and where a row refuses the call.
#[unsafe(no_mangle)]
pub extern "C" fn wintabol_looks<'a>(
    cohort: &'a [u8],
    clipped: bool,
    clip: &[u8],
    has_reference: bool,
    reference: &'a [u8],
    contig: &[u8],
    scratch: &mut [u64],
    figure: &mut usize,
) -> usize
    ensures { ExportedLooks
        (texts_of cohort.now clipped clip.now has_reference reference.now)
        contig.now scratch.old scratch.new result figure.new }
{
    let looked = wintabol::wintabol_looks(
        cohort,
        clipped,
        clip,
        has_reference,
        reference,
        contig,
        scratch,
    );
    wintabol::give(looked, figure)
}

// For each pair of `asked`, groups of `contig` and `pos` in list order, the number of the record of a combined list whose stretch holds it,
// counted from 0, or 4294967295 for none; how many pairs there are; and how many record groups were read, front to back, up to the last pair.
#[unsafe(no_mangle)]
pub extern "C" fn wintabol_look_up(
    list: &[u8],
    asked: &[u8],
    out: &mut [u32],
    pairs: &mut usize,
    groups: &mut u32,
) -> usize
    ensures { ExportedLookUp
        (look_up_within list.now asked.now (length out.old))
        out.old out.new result pairs.new groups.new }
{
    let answer = wintabol::wintabol_look_up(list, asked, out);
    wintabol::give_lookup(answer, pairs, groups)
}

// The called list of a combined list.
#[unsafe(no_mangle)]
pub extern "C" fn wintabol_call(list: &[u8], out: &mut [u8], written: &mut usize) -> usize
    ensures { Exported
        (called_list list.now (length out.old))
        out.old out.new result written.new }
{
    let outcome = wintabol::wintabol_call(list, out);
    wintabol::give(outcome, written)
}

// The alleles of a comma list, REF first, without their common ending.
#[unsafe(no_mangle)]
pub extern "C" fn wintabol_reverse_trim_alleles(
    alleles: &[u8],
    out: &mut [u8],
    written: &mut usize,
) -> usize
    ensures { Exported
        (trimmed_alleles alleles.now (length out.old))
        out.old out.new result written.new }
{
    let outcome = wintabol::wintabol_reverse_trim_alleles(alleles, out);
    wintabol::give(outcome, written)
}

// GQ of a list of PLs.
#[unsafe(no_mangle)]
pub extern "C" fn wintabol_gq_phred_from_pl(pl: &[u32]) -> u32
    ensures { result ≡ gq_from_pl pl.now }
{
    wintabol::wintabol_gq_phred_from_pl(pl)
}

// The log10 likelihoods of PLs.
#[unsafe(no_mangle)]
pub extern "C" fn wintabol_log10_likelihoods_from_pl(
    pl: &[u32],
    out: &mut [f64],
    written: &mut usize,
) -> usize
    ensures answered { Exported
        (within (length out.old) (map log10_from_pl pl.now))
        out.old out.new result written.new }
    ensures near { NearTenths pl.now written.new out.new }
{
    let outcome = wintabol::wintabol_log10_likelihoods_from_pl(pl, out);
    wintabol::give(outcome, written)
}

// Likelihoods over the alleles of a keep list.
#[unsafe(no_mangle)]
pub extern "C" fn wintabol_subset_log10_genotype_likelihoods(
    gl: &[f64],
    alleles: usize,
    keep: &[usize],
    out: &mut [f64],
    written: &mut usize,
) -> usize
    ensures answered { Exported
        (likelihood_subset gl.now alleles keep.now (length out.old))
        out.old out.new result written.new }
    ensures none_above { none_above written.new out.new ≡ true }
{
    let outcome = wintabol::wintabol_subset_log10_genotype_likelihoods(gl, alleles, keep, out);
    wintabol::give(outcome, written)
}

// A record without the ALTs that the GT does not name.
#[unsafe(no_mangle)]
pub extern "C" fn wintabol_subset_unused_alts(
    alts: &[u8],
    gt: &[usize],
    gl: &[f64],
    ad: &[u32],
    alts_out: &mut [u8],
    gl_out: &mut [f64],
    ad_out: &mut [u32],
    alts_written: &mut usize,
    gl_written: &mut usize,
    ad_written: &mut usize,
) -> usize
    ensures answered { ExportedAlts
        (unused_alt_subset_within alts.now gt.now gl.now ad.now
        (length alts_out.old) (length gl_out.old) (length ad_out.old))
        (outputs alts_out.old gl_out.old ad_out.old)
        (outputs alts_out.new gl_out.new ad_out.new)
        result alts_written.new gl_written.new ad_written.new }
    ensures none_above { subset_none_above alts.now gt.now gl_written.new gl_out.new ≡ true }
{
    let outcome = wintabol::wintabol_subset_unused_alts(alts, gt, gl, ad, alts_out, gl_out, ad_out);
    wintabol::give_alts(outcome, alts_written, gl_written, ad_written)
}
