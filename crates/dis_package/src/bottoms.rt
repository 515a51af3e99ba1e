// The bottoms of the layers and of the confining beds below them.
ghost use Rattle.std.specs.Prelude.{◌≡◌, IfOk, List};
ghost use Rattle.outside.specs.{FileSet, ReadsOn};
ghost use Rattle.record_lines.specs.{LinesMay, Gives};
ghost use Rattle.dis_package.specs.{bottom_at, bottoms_of};

use crate::frame::Size;
use array_reader::{append, layer_or, read_layer};
use decimal_input::dec::Dec;
use model_types::Listed;
use model_types::layers::int_at;
use outside::{Folder, InputFault};
use record_lines::Lines;
use std::alloc::Global;

/// The bottoms of the layers read so far, and of the beds below them.
#[derive(Drop)]
pub struct Bottoms {
    pub layers: Listed<Dec>,
    pub beds: Listed<Dec>,
}

/// One more layer.
#[tactic(auto, unfolding(crate::specs::Grids::bottom_at))]
fn bottom_at<F: Folder>(
    alloc: Global,
    lines: &mut Lines,
    file: &str,
    folder: &mut F,
    size: &Size,
    laycbd: &[i64],
    k: u32,
    so_far: Bottoms,
) -> Result<Bottoms, InputFault>
    requires lines { LinesMay (F.may folder.old) lines.old }
    ensures folder { ReadsOn F.Folder folder.old folder.new result }
    ensures lines { IfOk result (λ _. LinesMay (F.may folder.new) lines.new) }
    ensures bottoms { (files : FileSet) → F.agrees folder.new files →
        Gives (λ b. b) result lines.new (bottom_at files file.now size.now laycbd.now k (so_far, lines.old)) }
{
    let Bottoms { layers, beds } = so_far;
    let bottom = read_layer(alloc, lines, file, folder, size.rows, size.cols)?;
    let none = Dec {
        neg: false,
        digits: 0,
        exp: 0,
    };
    let has_bed = int_at(laycbd, k) != 0;
    let bed = layer_or(
        alloc, lines, file, folder, size.rows, size.cols, has_bed, none,
    )?;
    Ok(Bottoms {
        layers: append(layers, &bottom)?,
        beds: append(beds, &bed)?,
    })
}

/// The bottoms of `count` layers.
#[tactic(auto, unfolding(crate::specs::Grids::bottoms_of))]
pub fn bottoms_of<F: Folder>(
    alloc: Global,
    lines: &mut Lines,
    file: &str,
    folder: &mut F,
    size: &Size,
    laycbd: &[i64],
    count: u32,
) -> Result<Bottoms, InputFault>
    requires lines { LinesMay (F.may folder.old) lines.old }
    ensures folder { ReadsOn F.Folder folder.old folder.new result }
    ensures lines { IfOk result (λ _. LinesMay (F.may folder.new) lines.new) }
    ensures bottoms { (files : FileSet) → F.agrees folder.new files →
        Gives (λ b. b) result lines.new (bottoms_of files file.now size.now laycbd.now count lines.old) }
{
    let mut bottoms = Bottoms {
        layers: Listed::new(Vec::new(alloc)),
        beds: Listed::new(Vec::new(alloc)),
    };
    for k in 0..count {
        let more = bottom_at(alloc, lines, file, folder, size, laycbd, k, bottoms)?;
        bottoms = more;
    }
    Ok(bottoms)
}
