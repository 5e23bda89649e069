//! What a file is checked as.

use crate::opens::changed_disk;
use crate::told::push_counted;
use afl_outside::Disk;
use cell_values::{Bytes, Memory};
use file_checking::{CheckFault, Sound, check_file};
use test_kit::{Transcript, push_word};

fn push_sound(out: &mut Transcript, sound: Sound) {
    push_counted(out, "sound: ", u64::from(sound.arrays));
    push_counted(out, " arrays, ", sound.versions);
    push_counted(out, " versions, ", sound.chunks);
    push_word(out, " chunks\n");
}

fn push_page(out: &mut Transcript, fault: &str, page: u32) {
    push_counted(out, fault, u64::from(page));
    push_word(out, "\n");
}

fn push_fault(out: &mut Transcript, fault: CheckFault) {
    match fault {
        CheckFault::Disk => push_word(out, "the disk failed\n"),
        CheckFault::NotDatabase { page } => push_page(out, "no database, by page ", page),
        CheckFault::Damaged { page } => push_page(out, "damaged: page ", page),
        CheckFault::WrongOverlap { page } => push_page(out, "wrong overlap: page ", page),
        CheckFault::Memory => push_word(out, "no memory was found\n"),
    }
}

fn push_check<D: Disk + Drop>(out: &mut Transcript, disk: D) {
    let (answer, disk) = check_file(out.alloc(), disk);
    drop(disk);
    match answer {
        Ok(sound) => push_sound(out, sound),
        Err(fault) => push_fault(out, fault),
    }
}

/// Adds what a file is checked as where it is changed.
pub(crate) fn push_checked(out: &mut Transcript, file: &Bytes, changes: &str) {
    match changed_disk(out.alloc(), file, changes) {
        Ok(disk) => push_check(out, disk),
        Err(Memory) => out.note_short(),
    }
}
