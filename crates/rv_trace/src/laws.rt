//! What the definitions mean, said in another way.
ghost use Rattle.std.specs.Prelude.{◌≡◌, ◌↔◌, ◌<◌, ◌≤◌, ◌++◌, [], ◌∷◌, length, ℕ, List, Some, None, Ok, Err, true, false, AllPairs};
ghost use Rattle.rv_text.specs.TextLines.{line_end, line_here};
ghost use Rattle.rv_trace.specs.declared.head.Head.{Head};
ghost use Rattle.rv_trace.specs.declared.parts.LinePart.{LinePart};
ghost use Rattle.rv_trace.specs.Heads.{head_of, IsHead, EndsFirst};
ghost use Rattle.rv_trace.specs.Stamps.{IsStamp};
ghost use Rattle.rv_trace.specs.Lines.{is_stamp, line_of, moved};
ghost use Rattle.rv_trace.specs.Traces.{reading_of, trace_of};
ghost use Rattle.rv_trace.specs.Lines.{moved_line};
ghost use Rattle.rv_trace.specs.declared.line.TraceLine.{TraceLine};
ghost use Rattle.rv_trace.specs.Streams.{ended_front, part_read, TakesLine, IsTaken, IsRefused};
ghost use Rattle.rv_text.specs.declared.refusals.Refusal.{Refusal};

/// A head is said by its places alone: the head of a text is the one of all its heads that ends first.
pub fn heads_by_places()
    ensures some { (text : List ℕ) (head : Head) → (head_of text ≡ Some head) ↔ EndsFirst text head }
    ensures none { (text : List ℕ) → (head_of text ≡ None) ↔ ((head : Head) → ¬ IsHead text head) }
{}

/// A timestamp is said by its places alone.
pub fn stamps_by_places()
    ensures { (text : List ℕ) (word : LinePart) → (is_stamp text word ≡ true) ↔ IsStamp text word }
{}

/// A line says the same wherever it stands in a text: only its places move.
pub fn lines_move()
    ensures { (text : List ℕ) (from number : ℕ) → line_of text from number ≡ moved from (line_of text 0 number) }
{}

/// A line that has its line end says the same, whatever follows: so a trace can be read in pieces.
pub fn lines_stay()
    ensures { (text more : List ℕ) (number from : ℕ) → line_end text from < length text →
        reading_of (line_here (text ++ more) number from) ≡ reading_of (line_here text number from) }
{}

/// What is taken of a stream, line by line, is the trace that its text is: where the lines so far are the trace of what
/// was passed, they are so after each call.
pub fn takes_the_trace()
    ensures line { (before after whole text : List ℕ) (line : TraceLine) (lines : List TraceLine) → (taken : TakesLine before after whole text line) →
        trace_of before ≡ Ok lines → trace_of after ≡ Ok (lines ++ moved_line taken.last.from line ∷ []) }
    ensures none { (before after whole : List ℕ) (lines : List TraceLine) → IsTaken before after whole → trace_of before ≡ Ok lines → trace_of whole ≡ Ok lines }
    ensures refused { (before after whole : List ℕ) (refusal : Refusal) (lines : List TraceLine) → IsRefused before after whole refusal →
        trace_of before ≡ Ok lines → trace_of whole ≡ Err refusal }
{}

/// A refusal stays, whatever follows: that of a text up to its last line end, and that of what is read of a stream.
pub fn refusals_stay()
    ensures front { (fed more : List ℕ) (refusal : Refusal) → trace_of (ended_front fed) ≡ Err refusal → trace_of (fed ++ more) ≡ Err refusal }
    ensures read { (fed more : List ℕ) (refusal : Refusal) → trace_of (part_read false fed) ≡ Err refusal → trace_of (fed ++ more) ≡ Err refusal }
{}

/// The lines of a trace are numbered upwards.
pub fn traces_ascend()
    ensures { (text : List ℕ) (lines : List TraceLine) → trace_of text ≡ Ok lines → AllPairs (λ l m. l.number < m.number) lines }
{}
