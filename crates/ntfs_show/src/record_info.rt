//! A file record and its attributes, as they are printed.

ghost use Rattle.std.specs.Prelude.{◌≡◌, ◌≤◌, ◌+◌, ◌==◌, ◌&&◌, ◌++◌, length, true, false, IfErr, IfOk, MatchOption};
ghost use Rattle.ntfs_base.specs.Bytes.{cluster_at};
ghost use Rattle.ntfs_base.specs.Frames.{Copies, Gives, IfTold, OnlyReads, refused_as};
ghost use Rattle.ntfs_record.specs.Views.{shown_body, shown_view};
ghost use Rattle.ntfs_runs.specs.Cells.{are_cells};
ghost use Rattle.ntfs_runs.specs.Clusters.{AreSpellable, vcns};
ghost use Rattle.ntfs_print.specs.Fault.{show_origin};
ghost use Rattle.ntfs_print.specs.Label.{kind_and_name};
ghost use Rattle.ntfs_print.specs.Pending.{Pushes};
ghost use Rattle.ntfs_print.specs.Printing.{Prints};
ghost use Rattle.ntfs_show.specs.RecordInfo.{IsInterrupted, IsRecordRefusal, PrintsAlone, all_keep_cells, attribute_lines, block_printing, body_text, caption_text, captioned, captioned_line, file_printing, has_right_cells, head_lines, highest_text, keeps_cells, line_if_right, record_printing, record_refusal, resident_text, runs_text, shown_attributes};
ghost use Rattle.ntfs_survey.specs.Owned.{runs_in};
ghost use Rattle.ntfs_survey.specs.Surveying.{spells_cells};
ghost use Rattle.ntfs_volume.specs.Opened.{HasClusters};
ghost use Rattle.ntfs_volume.specs.Records.{read_of};

use ntfs_base::{Image, Line, Missing, Rule, Sink};
use ntfs_print::{Pending, ShowFault, kind_and_name, zeros};
use ntfs_record::{AttributeView, Body, RecordView, parse};
use ntfs_runs::{PairsFault, RunList, decode};
use ntfs_volume::{Table, Volume, VolumeFault};
use std::alloc::{AllocError, Global};

/// What a number in a line is.
#[derive(Clone, Copy)]
enum Caption {
    Number,
    Sequence,
    Links,
    Flags,
    Base,
    InUse,
    Resident,
    Vcn,
    To,
    Size,
    Valid,
    Runs,
}

#[tactic(auto, unfolding(crate::specs::RecordInfo::caption_text))]
fn caption_text(caption: Caption) -> &'static [u8]
    ensures value { result.now ≡ caption_text caption }
    ensures room { length result.now ≤ 14 }
{
    match caption {
        Caption::Number => b"record: ",
        Caption::Sequence => b"sequence: ",
        Caption::Links => b"links: ",
        Caption::Flags => b"flags: ",
        Caption::Base => b"base: ",
        Caption::InUse => b"bytes in use: ",
        Caption::Resident => b" resident ",
        Caption::Vcn => b" vcn ",
        Caption::To => b"-",
        Caption::Size => b" size ",
        Caption::Valid => b" valid ",
        Caption::Runs => b" runs ",
    }
}

/// Appends a number and what it is.
fn push_captioned(text: &mut Line, caption: Caption, number: u64)
    requires { length text.old + 40 ≤ 512 }
    ensures value { text.new ≡ text.old ++ captioned caption number }
    ensures room { length text.new ≤ length text.old + 34 }
{
    text.push(caption_text(caption));
    text.push_number(number);
}

/// Appends a line of a number and what it is.
fn push_captioned_line(text: &mut Line, caption: Caption, number: u64)
    requires { length text.old + 40 ≤ 512 }
    ensures value { text.new ≡ text.old ++ captioned_line caption number }
    ensures room { length text.new ≤ length text.old + 40 }
{
    push_captioned(text, caption, number);
    text.push(b"\n");
}

/// The six lines of the head of the record of a number.
#[tactic(auto, unfolding(crate::specs::RecordInfo::head_lines))]
fn head_lines(number: u64, view: &RecordView<'_>) -> Line
    ensures { result ≡ head_lines number view.now }
{
    let mut text = Line::new();
    push_captioned_line(&mut text, Caption::Number, number);
    push_captioned_line(&mut text, Caption::Sequence, u64::from(view.sequence()));
    push_captioned_line(&mut text, Caption::Links, u64::from(view.links()));
    push_captioned_line(&mut text, Caption::Flags, u64::from(view.flags()));
    push_captioned_line(&mut text, Caption::Base, view.base());
    push_captioned_line(&mut text, Caption::InUse, u64::from(view.in_use()));
    text
}

/// Appends a dash and the highest VCN, which is -1 where there is no VCN.
fn push_highest(text: &mut Line, next: u64)
    requires { length text.old + 40 ≤ 512 }
    ensures value { text.new ≡ text.old ++ (caption_text Caption.To ++ highest_text next) }
    ensures room { length text.new ≤ length text.old + 34 }
{
    text.push(caption_text(Caption::To));
    if next == 0 {
        text.push(b"-1");
    } else {
        text.push_number(next - 1);
    }
}

#[tactic(auto, unfolding(crate::specs::RecordInfo::resident_text))]
fn resident_text(size: u64) -> Line
    ensures { result ≡ resident_text size }
{
    let mut text = Line::new();
    push_captioned_line(&mut text, Caption::Resident, size);
    text
}

#[tactic(auto, unfolding(crate::specs::RecordInfo::runs_text))]
fn runs_text(lowest: u64, next: u64, size: u64, valid: u64, count: u64) -> Line
    ensures { result ≡ runs_text lowest next size valid count }
{
    let mut text = Line::new();
    push_captioned(&mut text, Caption::Vcn, lowest);
    push_highest(&mut text, next);
    push_captioned(&mut text, Caption::Size, size);
    push_captioned(&mut text, Caption::Valid, valid);
    push_captioned_line(&mut text, Caption::Runs, count);
    text
}

/// The runs spell so many VCNs, all below the number of clusters.
fn spell(list: &RunList, count: u64, clusters: u64) -> bool
    requires { AreSpellable list.now }
    ensures { result ≡ (are_cells true clusters (vcns list.now) && (length (vcns list.now) == count)) }
{
    list.lies_below(true, clusters) && list.vcn_count() == count
}

/// How many runs there are in pairs that spell so many VCNs, all below the number of clusters; none for other pairs.
fn run_count(
    alloc: Global,
    pairs: &[u8],
    count: u64,
    clusters: u64,
) -> Result<Option<u64>, AllocError>
    ensures { IfOk result (λ runs. MatchOption runs (spells_cells clusters count pairs.now ≡ false)
        (λ runs. (spells_cells clusters count pairs.now ≡ true) × (runs ≡ length (runs_in pairs.now)))) }
{
    match decode(alloc, pairs) {
        Err(PairsFault::NoMemory) => Err(AllocError),
        Err(PairsFault::BadPairs { .. }) => Ok(None),
        Ok(list) => {
            if !spell(&list, count, clusters) {
                return Ok(None);
            }
            Ok(Some(list.runs().len() as u64))
        }
    }
}

/// What the line of an attribute says of its body; none where the body breaks rule C7.
#[tactic(auto, unfolding(crate::specs::RecordInfo::keeps_cells))]
fn body_text(alloc: Global, body: &Body<'_>, clusters: u64) -> Result<Option<Line>, AllocError>
    ensures { IfOk result (λ text. MatchOption text (keeps_cells clusters (shown_body body.now) ≡ false)
        (λ text. (keeps_cells clusters (shown_body body.now) ≡ true) × (text ≡ body_text (shown_body body.now)))) }
{
    match *body {
        Body::Resident { value } => Ok(Some(resident_text(value.len() as u64))),
        Body::Runs {
            lowest,
            next,
            size,
            valid,
            pairs,
            ..
        } => match run_count(alloc, pairs, next.saturating_sub(lowest), clusters)? {
            None => Ok(None),
            Some(count) => Ok(Some(runs_text(lowest, next, size, valid, count))),
        },
    }
}

/// Prints the type and the name of an attribute, and this text behind them.
fn push_line<K: Sink>(
    alloc: Global,
    attribute: &AttributeView<'_>,
    text: &Line,
    pending: &mut Pending,
    out: &mut K,
) -> Result<(), ShowFault>
    ensures pushes { Pushes (kind_and_name attribute.now.kind attribute.now.name.now ++ text.now) pending.old
        (K.seen out.old) result pending.new (K.seen out.new) }
    ensures cut { IfErr result IsInterrupted }
    ensures prints { PrintsAlone K.Sink show_origin out.old out.new result }
{
    let label = kind_and_name(alloc, attribute.kind, attribute.name)?;
    pending.push(label.as_bytes(), out)?;
    pending.push(text.as_bytes(), out)?;
    Ok(())
}

/// Prints the line of an attribute, where it keeps rule C7; whether it does.
fn push_attribute<K: Sink>(
    alloc: Global,
    attribute: &AttributeView<'_>,
    clusters: u64,
    pending: &mut Pending,
    out: &mut K,
) -> Result<bool, ShowFault>
    ensures pushes { Pushes (line_if_right clusters (shown_view attribute.now)) pending.old (K.seen out.old) result
        pending.new (K.seen out.new) }
    ensures keeps { IfOk result (λ keeps. keeps ≡ has_right_cells clusters (shown_view attribute.now)) }
    ensures cut { IfErr result IsInterrupted }
    ensures prints { PrintsAlone K.Sink show_origin out.old out.new result }
{
    let Some(text) = body_text(alloc, &attribute.body, clusters)? else {
        return Ok(false);
    };
    push_line(alloc, attribute, &text, pending, out)?;
    Ok(true)
}

/// Prints the lines of the attributes above the first that breaks rule C7; whether all keep it.
fn push_attributes<K: Sink>(
    alloc: Global,
    view: &RecordView<'_>,
    clusters: u64,
    pending: &mut Pending,
    out: &mut K,
) -> Result<bool, ShowFault>
    ensures pushes { Pushes (attribute_lines clusters (shown_attributes view.now)) pending.old (K.seen out.old) result
        pending.new (K.seen out.new) }
    ensures keep { IfOk result (λ keep. keep ≡ all_keep_cells clusters (shown_attributes view.now)) }
    ensures cut { IfErr result IsInterrupted }
    ensures prints { PrintsAlone K.Sink show_origin out.old out.new result }
{
    'attributes: for attribute in view.attributes() {
        if !push_attribute(alloc, &attribute, clusters, pending, out)? {
            return Ok(false);
        }
    }
    Ok(true)
}

/// Prints what a record of a number says.
#[tactic(auto, unfolding(crate::specs::RecordInfo::file_printing))]
fn put_view<K: Sink>(
    alloc: Global,
    view: &RecordView<'_>,
    clusters: u64,
    number: u64,
    out: &mut K,
) -> Result<(), ShowFault>
    ensures told { Prints show_origin (file_printing clusters number view.now) (K.seen out.old) result
        (K.seen out.new) }
    ensures listed { IfErr result (IsRecordRefusal number) }
    ensures prints { PrintsAlone K.Sink show_origin out.old out.new result }
{
    let mut pending = Pending::new(alloc)?;
    pending.push(head_lines(number, view).as_bytes(), out)?;
    let keep = push_attributes(alloc, view, clusters, &mut pending, out)?;
    pending.put_rest(out)?;
    if !keep {
        return Err(ShowFault::Damaged {
            rule: Rule::C7,
            number,
        });
    }
    Ok(())
}

/// Prints the record of a number, whose unfixed bytes these are.
#[tactic(auto, unfolding(crate::specs::RecordInfo::block_printing))]
fn put_block<K: Sink>(
    alloc: Global,
    block: &[u8],
    clusters: u64,
    number: u64,
    out: &mut K,
) -> Result<(), ShowFault>
    ensures told { Prints show_origin (block_printing clusters number block.now) (K.seen out.old) result
        (K.seen out.new) }
    ensures listed { IfErr result (IsRecordRefusal number) }
    ensures prints { PrintsAlone K.Sink show_origin out.old out.new result }
{
    match parse(block) {
        Err(_) => Err(ShowFault::Damaged {
            rule: Rule::C4,
            number,
        }),
        Ok(view) => put_view(alloc, &view, clusters, number, out),
    }
}

/// A refusal to read the record of a number: it isn't in use, or was not to be read; else something is wrong with it.
fn record_refusal(fault: VolumeFault, number: u64) -> ShowFault
    ensures value { result ≡ record_refusal number fault }
    ensures listed { IsRecordRefusal number result }
{
    match fault {
        VolumeFault::Absent => ShowFault::NotFound {
            what: Missing::Record { number },
        },
        VolumeFault::ReadFault => ShowFault::ReadFault,
        VolumeFault::WriteFault => ShowFault::WriteFault,
        VolumeFault::NoMemory => ShowFault::NoMemory,
        _ => ShowFault::Damaged {
            rule: Rule::C4,
            number,
        },
    }
}

/// Reads the record of a number into `block`, and unfixes it. After a refusal `block` holds anything.
fn read_block<G: Image>(
    image: &mut G,
    table: &Table,
    number: u64,
    block: &mut [u8],
) -> Result<(), ShowFault>
    requires held { HasClusters (G.seen image.old).size table.now }
    requires block { length block.old ≡ table.now.geometry.record_size }
    ensures gives { IfTold G.Image image.old (λ content. Gives show_origin (λ done. block.new)
        (refused_as (record_refusal number) (read_of table.now.geometry table.now.map
        (cluster_at content table.now.geometry.cluster) number)) result) }
    ensures listed { IfErr result (IsRecordRefusal number) }
    ensures reads { OnlyReads G.Image show_origin image.old image.new result }
{
    match table.read_record(image, number, block) {
        Err(fault) => Err(record_refusal(fault, number)),
        Ok(()) => Ok(()),
    }
}

/// Prints the record of a number, which is read into `block`.
fn show_by_block<G: Image, K: Sink>(
    alloc: Global,
    image: &mut G,
    table: &Table,
    number: u64,
    block: &mut [u8],
    out: &mut K,
) -> Result<(), ShowFault>
    requires held { HasClusters (G.seen image.old).size table.now }
    requires block { length block.old ≡ table.now.geometry.record_size }
    ensures told { IfTold G.Image image.old (λ content. Prints show_origin (record_printing table.now content number)
        (K.seen out.old) result (K.seen out.new)) }
    ensures listed { IfErr result (IsRecordRefusal number) }
    ensures copies { Copies G.Image K.Sink show_origin image.old image.new out.old out.new result }
{
    read_block(image, table, number, block)?;
    put_block(alloc, block, table.geometry().clusters, number, out)
}

/// Prints the record of a number of the volume whose table is kept: its head in six lines, and then a line for each of
/// its attributes, in their order.
///
/// A line ends with `resident` and the length of the value in bytes, or with the lowest and the highest VCN, the size
/// and the initialised size of the stream in bytes, and how many runs the mapping pairs spell, holes among them. Only
/// what the record itself says is shown, an extension record's as that of any other. A record that isn't in use isn't
/// found; one that can't be read is damaged by rule C4. At an attribute whose pairs don't spell its VCNs on the volume
/// the printing ends, damaged by rule C7: the lines above it were put. After a fault or want of memory a prefix of the
/// lines was put.
pub fn show_record<G: Image, K: Sink>(
    alloc: Global,
    image: &mut G,
    table: &Table,
    number: u64,
    out: &mut K,
) -> Result<(), ShowFault>
    requires held { HasClusters (G.seen image.old).size table.now }
    ensures told { IfTold G.Image image.old (λ content. Prints show_origin (record_printing table.now content number)
        (K.seen out.old) result (K.seen out.new)) }
    ensures listed { IfErr result (IsRecordRefusal number) }
    ensures copies { Copies G.Image K.Sink show_origin image.old image.new out.old out.new result }
{
    let mut block = zeros(alloc, table.geometry().record_size as usize)?;
    show_by_block(alloc, image, table, number, &mut block, out)
}

/// Prints the record of a number of a volume, as `show_record` does.
pub fn info_record<G: Image, K: Sink>(
    alloc: Global,
    volume: &mut Volume<'_, G>,
    number: u64,
    out: &mut K,
) -> Result<(), ShowFault>
    requires held { HasClusters (G.seen volume.old.image.now).size volume.old.table }
    ensures told { IfTold G.Image volume.old.image.now (λ content. Prints show_origin
        (record_printing volume.old.table content number) (K.seen out.old) result (K.seen out.new)) }
    ensures listed { IfErr result (IsRecordRefusal number) }
    ensures same_reference { volume.new.image.ghost_name ≡ volume.old.image.ghost_name }
    ensures kept { volume.new.table ≡ volume.old.table }
    ensures copies { Copies G.Image K.Sink show_origin volume.old.image.now volume.new.image.now
        out.old out.new result }
{
    show_record(alloc, &mut *volume.image, &volume.table, number, out)
}
