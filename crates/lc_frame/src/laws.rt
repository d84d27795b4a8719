// What the calls of a render, or of a picture alone, leave in the files, by the definitions alone. The functions do
// nothing: they state laws by their contracts.
ghost use Rattle.std.specs.Prelude.{◌≡◌, List};
ghost use Rattle.lc_desk.specs.declared.desk.PutStop.{PutStop};
ghost use Rattle.lc_desk.specs.Calls.{AreOn, BrokeOff, after_calls};
ghost use Rattle.lc_desk.specs.Desk.{DeskState, Slots, appended, opened};
ghost use Rattle.lc_num.specs.declared.channels.Rgb.{Rgb};
ghost use Rattle.lc_rated.specs.declared.answer.Answer.{Answer};
ghost use Rattle.lc_job.specs.declared.job.Job.{Job};
ghost use Rattle.lc_frame.specs.Files.{LeftPart, files, picture_file};
ghost use Rattle.lc_frame.specs.Frames.{picture_text, record_text, render_calls};
ghost use Rattle.lc_frame.specs.PlainFrames.{plain_calls, plain_picture};

/// After all calls of a render the picture's file has exactly the picture of the answers, and the record's file
/// exactly their record, each under its name; the other slots are as they were. After any refusal each of the two
/// files is as it was, or has a first part of those bytes under its name.
pub fn written_files()
    ensures picture { (job : Job) (rows : List (List (List Answer))) (s : Slots)
        → (after_calls (render_calls job rows) s).picture
        ≡ appended (picture_text job rows) (opened job.picture s.picture) }
    ensures bounds { (job : Job) (rows : List (List (List Answer))) (s : Slots)
        → (after_calls (render_calls job rows) s).bounds
        ≡ appended (record_text job rows) (opened job.bounds s.bounds) }
    ensures report { (job : Job) (rows : List (List (List Answer))) (s : Slots)
        → (after_calls (render_calls job rows) s).report ≡ s.report }
    ensures note { (job : Job) (rows : List (List (List Answer))) (s : Slots)
        → (after_calls (render_calls job rows) s).note ≡ s.note }
    ensures slots { (job : Job) (rows : List (List (List Answer))) → AreOn files (render_calls job rows) }
    ensures picture_part { (why : PutStop) (job : Job) (rows : List (List (List Answer))) (before now : DeskState)
        → BrokeOff why (render_calls job rows) before now
        → LeftPart job.picture (picture_text job rows) before.slots.picture now.slots.picture }
    ensures bounds_part { (why : PutStop) (job : Job) (rows : List (List (List Answer))) (before now : DeskState)
        → BrokeOff why (render_calls job rows) before now
        → LeftPart job.bounds (record_text job rows) before.slots.bounds now.slots.bounds }
{}

/// After all calls of a picture by the sums over all lights the picture's file has exactly that picture, under its
/// name; the other slots are as they were. After any refusal the file is as it was, or has a first part of those
/// bytes under its name.
pub fn written_picture()
    ensures picture { (job : Job) (rows : List (List (List Rgb))) (s : Slots)
        → (after_calls (plain_calls job rows) s).picture
        ≡ appended (plain_picture job rows) (opened job.picture s.picture) }
    ensures bounds { (job : Job) (rows : List (List (List Rgb))) (s : Slots)
        → (after_calls (plain_calls job rows) s).bounds ≡ s.bounds }
    ensures report { (job : Job) (rows : List (List (List Rgb))) (s : Slots)
        → (after_calls (plain_calls job rows) s).report ≡ s.report }
    ensures note { (job : Job) (rows : List (List (List Rgb))) (s : Slots)
        → (after_calls (plain_calls job rows) s).note ≡ s.note }
    ensures slots { (job : Job) (rows : List (List (List Rgb))) → AreOn picture_file (plain_calls job rows) }
    ensures picture_part { (why : PutStop) (job : Job) (rows : List (List (List Rgb))) (before now : DeskState)
        → BrokeOff why (plain_calls job rows) before now
        → LeftPart job.picture (plain_picture job rows) before.slots.picture now.slots.picture }
{}
