// A part of a message, such as its payload, that is read by itself.
#![tactic(auto)]

ghost use Rattle.std.specs.Prelude.{◌≡◌, ◌+◌, ◌-◌, ◌*◌, ◌<◌, ◌≤◌, length, map};
ghost use Rattle.std.proofs.lemmas.List.Edits.{sets};
ghost use Rattle.sim0mq.specs.Payload.{moved};
ghost use Rattle.sim0mq.specs.Table.{row, row_size};
ghost use Rattle.sim0mq.specs.Views.{judged};
ghost use Rattle.sim0mq_numbers.specs.Numbers.{Below};
ghost use Rattle.reading_fields.specs.Items.{seen};
ghost use Rattle.reading_runs.specs.Runs.{plain_at, alike_fields};
ghost use Rattle.reading_parts.specs.Parts.{rest_steps, part_steps};
ghost use Rattle.reading_parts.specs.Kept.{Small, kept_one, kept_all, rows_in, kept_rest, kept_part, Keepable, agrees_at, kept_lead};

use reading_fields::Field;
use reading_heads::{Asked, head};
use reading_runs::{Run, run_at};
use reading_values::values;
use sim0mq::{LIMIT, ROW, Reason, Refusal, refuse};
use sim0mq_marks::mark_by;
use sim0mq_tables::lasts;

// Stores the six numbers of a field of a part that begins at place `base`, from place i on.
fn store(kept: &mut [u32], i: usize, base: usize, f: Field)
    requires { (i + 6 ≤ length kept.old) × Small base (seen f) }
    ensures { kept.new ≡ sets kept.old i (row (moved base (seen f))) }
{
    kept[i] = f.code as u32;
    kept[i + 1] = (base + f.place) as u32;
    kept[i + 2] = (base + f.first) as u32;
    kept[i + 3] = f.size as u32;
    kept[i + 4] = f.marked as u32;
    kept[i + 5] = f.values as u32;
}

// What is known of the field at `at` that has this head, with so many value bytes from `first` on.
fn found(h: Asked, at: usize, first: usize, size: usize) -> Field
    ensures { seen result
        ≡ record { code = h.code; place = at; first = first; size = size; marked = h.marked; values = h.values } }
{
    Field {
        code: h.code,
        place: at,
        first,
        size,
        marked: h.marked,
        values: h.values,
    }
}

// Keeps field i of a part that begins at place `base`, if it is not before field k and there is a row for it.
fn keep(kept: &mut [u32], many: usize, k: usize, i: usize, base: usize, f: Field)
    requires { (row_size * many ≤ length kept.old) × (0 < many → Small base (seen f)) }
    ensures { kept.new ≡ kept_one many k i (moved base (seen f)) kept.old }
{
    if i < k {
        return;
    }
    let j = i - k;
    if j < many {
        store(kept, ROW * j, base, f);
    }
}

// How many rows are kept of a part of so many bytes that begins at place `base`, where there is room for so many
// numbers.
fn rows(base: usize, bytes: usize, numbers: usize) -> usize
    ensures { result ≡ rows_in (base + bytes) numbers }
{
    if base <= LIMIT {
        if bytes <= LIMIT - base {
            return numbers / ROW;
        }
    }
    0
}

// The field of a run that stands at `at`.
fn field_at(run: Run, at: usize) -> Field
    requires { at < 18446744073709551615 }
    ensures { seen result ≡ plain_at run.code run.size at }
{
    Field {
        code: run.code,
        place: at,
        first: at + 1,
        size: run.size,
        marked: 0,
        values: 1,
    }
}

// How many of so many fields, of which the first is field i, come before field k.
fn skipped(k: usize, i: usize, fields: usize) -> usize
    ensures { (result ≤ fields) × (0 < result → i + result ≤ k) }
{
    if k <= i {
        return 0;
    }
    if k - i < fields {
        return k - i;
    }
    fields
}

// Keeps the fields of a run that stands at `at` of a part that begins at place `base`, the first of which is field i,
// each as `keep` does.
fn keep_each(kept: &mut [u32], many: usize, k: usize, i: usize, base: usize, at: usize, run: Run)
    requires { (row_size * many ≤ length kept.old) × Keepable many i base at run }
    ensures { kept.new
        ≡ kept_all many k i (map (moved base) (alike_fields run.code run.size run.fields at)) kept.old }
{
    let step = run.size + 1;
    let first = skipped(k, i, run.fields);
    let mut p = at + first * step;
    for j in first..run.fields {
        keep(kept, many, k, i + j, base, field_at(run, p));
        p += step;
    }
}

// The same, with ways of their own for no row and for one field.
fn keep_run(kept: &mut [u32], many: usize, k: usize, i: usize, base: usize, at: usize, run: Run)
    requires { (row_size * many ≤ length kept.old) × Keepable many i base at run }
    ensures { kept.new
        ≡ kept_all many k i (map (moved base) (alike_fields run.code run.size run.fields at)) kept.old }
{
    if many == 0 {
        return;
    }
    if run.fields == 1 {
        keep(kept, many, k, i, base, field_at(run, at));
        return;
    }
    keep_each(kept, many, k, i, base, at, run);
}

// Whether the numbers of a run that stands at the front of a part, which begins at place `base`, agree with one
// another, and it ends within the limit.
fn agrees(base: usize, run: Run) -> bool
    ensures { result ≡ agrees_at base run }
{
    if 8 < run.code {
        return false;
    }
    if 8 < run.size {
        return false;
    }
    if LIMIT < run.fields {
        return false;
    }
    if LIMIT < base {
        return false;
    }
    if LIMIT - base < run.end {
        return false;
    }
    run.end == run.fields * (run.size + 1)
}

// Keeps the fields of a run that stands at the front of a part, which begins at place `base`, as far as there is room;
// where its numbers do not agree, none.
pub fn keep_lead(kept: &mut [u32], base: usize, run: Run)
    ensures { kept.new ≡ kept_lead base run kept.old }
{
    if agrees(base, run) {
        keep_run(kept, kept.len() / ROW, 0, 0, base, 0, run);
    }
}

// The n fields of the part s from place `from` on, where the part begins at place `base` of its message: their steps,
// one for each field and each mark, and no more than the bytes from there on; or the refusal, with its place in the
// part. The rows of the fields from field k of them on are kept, as far as there is room, up to the first fault. Fields
// that are alike are judged together.
pub fn part_from(
    s: &[u8],
    base: usize,
    from: usize,
    n: usize,
    k: usize,
    kept: &mut [u32],
) -> Result<usize, Refusal>
    ensures answer { (judged result ≡ rest_steps s.now from n)
        × Below (length s.now - from + 1) result }
    ensures kept { kept.new ≡ kept_rest s.now base from n k kept.old }
{
    if s.len() < from {
        return refuse(Reason::BytesEnd, s.len());
    }
    let many = rows(base, s.len(), kept.len());
    let last = lasts();
    let mut left = n;
    let mut at = from;
    let mut steps: usize = 0;
    'fields: loop {
        if left == 0 {
            if at < s.len() {
                break 'fields refuse(Reason::BytesLeft, at);
            }
            break 'fields Ok(steps);
        }
        let run = run_at(s, at, left);
        if 0 < run.fields {
            keep_run(kept, many, k, n - left, base, at, run);
            at = run.end;
            left -= run.fields;
            steps += run.fields;
            continue 'fields;
        }
        match head(s, at) {
            Err(r) => break 'fields Err(r),
            Ok(h) => {
                let mut p = h.next;
                for _ in 0..h.marked {
                    match mark_by(s, p, &last) {
                        Err(of_mark) => break 'fields Err(of_mark),
                        Ok(q) => p = q,
                    }
                }
                match values(s, h.code, h.values, p) {
                    Err(of_values) => break 'fields Err(of_values),
                    Ok(e) => {
                        keep(kept, many, k, n - left, base, found(h, at, p, e - p));
                        at = e;
                    }
                }
                left -= 1;
                steps += h.marked + 1;
            }
        }
    }
}

// The part s of n fields, which begins at place `base` of its message, in the same way from its front.
pub fn part(s: &[u8], base: usize, n: usize, k: usize, kept: &mut [u32]) -> Result<usize, Refusal>
    ensures answer { (judged result ≡ part_steps s.now n) × Below (length s.now + 1) result }
    ensures kept { kept.new ≡ kept_part s.now base n k kept.old }
{
    part_from(s, base, 0, n, k, kept)
}
