// The functions of `exports` under the C calling convention: each calls the one of its name and promises the same. What the arguments are stands
// there. The archive that is built of this crate is what other languages link.
// kept: the C interface: C hands over each buffer and array as a parameter of its own.
#![tactic(auto)]

ghost use Rattle.std.specs.Prelude.{◌≡◌, true, false};
ghost use Rattle.std.proofs.lemmas.List.Edits.{sets};
ghost use Rattle.text.specs.Newlines.{count_newlines};
ghost use Rattle.exports.specs.Numbers.{told_newlines};
ghost use Rattle.exports.specs.Calls.{ChecksFile, CountsFile, Lays, Renders, FormatsFile};
ghost use Rattle.exports.specs.Generator.{WritesImage, ListsSteps};
ghost use Rattle.exports.specs.Saves.{FormatsBatch};
ghost use Rattle.exports.specs.Measures.{MeasuresText};
ghost use Rattle.exports.specs.Archive.{MovesForward, MovesBack};
ghost use Rattle.exports.specs.Verdict.{SaysVerdict};
ghost use Rattle.exports.specs.Formulas.{PutsFormula};

#[unsafe(no_mangle)]
pub extern "C" fn rrufthim_check_s3(source: &[u8], image: &[u8], out: &mut [u64; 4])
    ensures { ChecksFile source.now image.now out.old out.new }
{
    exports::rrufthim_check_s3(source, image, out);
}

#[unsafe(no_mangle)]
pub extern "C" fn rrufthim_layout_s3(
    source: &[u8],
    image: &[u8],
    store: &mut [u32],
    state: &[u64; 9],
    args: &[u64; 4],
    out: &mut [u64; 11],
)
    ensures { Lays false source.now image.now store.old state.now args.now out.old store.new out.new }
{
    exports::rrufthim_layout_s3(source, image, store, state, args, out);
}

#[unsafe(no_mangle)]
pub extern "C" fn rrufthim_render_s3(
    source: &[u8],
    image: &[u8],
    store: &mut [u32],
    marks: &mut [u8],
    output: &mut [u8],
    state: &[u64; 264],
    args: &[u64; 4],
    out: &mut [u64; 267],
)
    ensures { Renders source.now image.now store.old marks.old output.old state.now args.now out.old store.new marks.new output.new out.new }
{
    exports::rrufthim_render_s3(source, image, store, marks, output, state, args, out);
}

#[unsafe(no_mangle)]
pub extern "C" fn rrufthim_format_s3(
    source: &[u8],
    image: &[u8],
    choice: &[u64; 3],
    output: &mut [u8],
    out: &mut [u64; 5],
)
    ensures { FormatsFile source.now image.now choice.now output.old out.old output.new out.new }
{
    exports::rrufthim_format_s3(source, image, choice, output, out);
}

#[unsafe(no_mangle)]
pub extern "C" fn rrufthim_newlines_s3(source: &[u8], start: u64, end: u64, out: &mut [u64; 2])
    ensures { out.new ≡ sets out.old 0 (told_newlines (count_newlines source.now start end)) }
{
    exports::rrufthim_newlines_s3(source, start, end, out);
}

#[unsafe(no_mangle)]
pub extern "C" fn rrufthim_count_s3(
    source: &[u8],
    image: &[u8],
    tallies: &[u64; 8],
    out: &mut [u64; 18],
)
    ensures { CountsFile source.now image.now tallies.now out.old out.new }
{
    exports::rrufthim_count_s3(source, image, tallies, out);
}

#[unsafe(no_mangle)]
pub extern "C" fn rrufthim_write_s3(steps: &[u8], output: &mut [u8], out: &mut [u64; 2])
    ensures { WritesImage steps.now output.old out.old output.new out.new }
{
    exports::generator::rrufthim_write_s3(steps, output, out);
}

#[unsafe(no_mangle)]
pub extern "C" fn rrufthim_steps_s3(
    source: &[u8],
    image: &[u8],
    output: &mut [u8],
    out: &mut [u64; 2],
)
    ensures { ListsSteps source.now image.now output.old out.old output.new out.new }
{
    exports::generator::rrufthim_steps_s3(source, image, output, out);
}

#[unsafe(no_mangle)]
pub extern "C" fn rrufthim_batch_s3(
    frames: &[u8],
    choice: &[u64; 3],
    table: &mut [u32],
    output: &mut [u8],
    out: &mut [u64; 3],
)
    ensures { FormatsBatch frames.now choice.now table.old output.old out.old table.new output.new out.new }
{
    exports::saves::rrufthim_batch_s3(frames, choice, table, output, out);
}

#[unsafe(no_mangle)]
pub extern "C" fn rrufthim_columns_s3(text: &[u8], rule: u64, supplied: u64, out: &mut [u64; 2])
    ensures { MeasuresText text.now rule supplied out.old out.new }
{
    exports::measures::rrufthim_columns_s3(text, rule, supplied, out);
}

#[unsafe(no_mangle)]
pub extern "C" fn rrufthim_layout_archived_s3(
    source: &[u8],
    image: &[u8],
    store: &mut [u32],
    state: &[u64; 9],
    args: &[u64; 4],
    out: &mut [u64; 11],
)
    ensures { Lays true source.now image.now store.old state.now args.now out.old store.new out.new }
{
    exports::archive::rrufthim_layout_archived_s3(source, image, store, state, args, out);
}

#[unsafe(no_mangle)]
pub extern "C" fn rrufthim_forward_s3(
    source: &[u8],
    image: &[u8],
    output: &mut [u8],
    out: &mut [u64; 2],
)
    ensures { MovesForward source.now image.now output.old out.old output.new out.new }
{
    exports::archive::rrufthim_forward_s3(source, image, output, out);
}

#[unsafe(no_mangle)]
pub extern "C" fn rrufthim_back_s3(
    source: &[u8],
    image: &[u8],
    output: &mut [u8],
    out: &mut [u64; 2],
)
    ensures { MovesBack source.now image.now output.old out.old output.new out.new }
{
    exports::archive::rrufthim_back_s3(source, image, output, out);
}

#[unsafe(no_mangle)]
pub extern "C" fn rrufthim_reads_back_s3(source: &[u8], image: &[u8], out: &mut [u64; 3])
    ensures { SaysVerdict source.now image.now out.old out.new }
{
    exports::verdict::rrufthim_reads_back_s3(source, image, out);
}

#[unsafe(no_mangle)]
pub extern "C" fn rrufthim_formula_s3(size: u64, place: u64, output: &mut [u8], out: &mut [u64; 2])
    ensures { PutsFormula size place output.old out.old output.new out.new }
{
    exports::formula::rrufthim_formula_s3(size, place, output, out);
}
