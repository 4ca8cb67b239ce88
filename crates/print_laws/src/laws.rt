//! What a printed text tells.
ghost use Rattle.std.specs.Prelude.{◌≡◌, ◌++◌, List, ℕ, flat_map, map};
ghost use Rattle.plain_model.specs.declared.job.Job.{Job};
ghost use Rattle.plain_model.specs.declared.reply.Reply.{Reply};
ghost use Rattle.shell_print.specs.declared.cause.PrintCause.{PrintCause};
ghost use Rattle.shell_print.specs.CauseText.{cause_text};
ghost use Rattle.shell_print.specs.ReplyText.{reply_text};
ghost use Rattle.shell_print.specs.Shown.{byte_text, shown};
ghost use Rattle.print_laws.specs.Answer.{Answer, AreAnswers, IsAnswer, answer_text, shown_answer};
ghost use Rattle.print_laws.specs.Reply.{IsCause, IsReply, shown_reply};

/// Bytes of a row, a qualifier or a value, as they are printed, tell the bytes; each byte does so whatever follows it.
pub fn shown_bytes_are_told()
    ensures bytes { (first second : List ℕ) → shown first ≡ shown second → first ≡ second }
    ensures byte { (first second : ℕ) (rest more : List ℕ) → byte_text first ++ rest ≡ byte_text second ++ more → (first ≡ second) × (rest ≡ more) }
{}

/// Two replies print alike exactly where they are the same but for the kinds and the numbers of cells, which no line
/// shows: whatever jobs gave them.
pub fn replies_are_told()
    ensures told { (first second : Reply) → IsReply first → IsReply second → reply_text first ≡ reply_text second → shown_reply first ≡ shown_reply second }
    ensures alike { (first second : Reply) → shown_reply first ≡ shown_reply second → reply_text first ≡ reply_text second }
{}

/// No reply prints as a cause does, and a cause's line tells the cause.
pub fn causes_are_told()
    ensures told { (first second : PrintCause) → IsCause first → IsCause second → cause_text first ≡ cause_text second → first ≡ second }
    ensures apart { (reply : Reply) (cause : PrintCause) → IsReply reply → IsCause cause → reply_text reply ≡ cause_text cause → ⊥ }
{}

/// The text of the answers to some jobs, one behind another, tells each answer, and so does the text of one answer
/// whatever follows it. A job's own replies are needed here: a snapshot may be named `ok`.
pub fn answers_are_told()
    ensures all { (jobs : List Job) (first second : List Answer) → AreAnswers jobs first → AreAnswers jobs second → flat_map answer_text first ≡ flat_map answer_text second → map shown_answer first ≡ map shown_answer second }
    ensures one { (job : Job) (first second : Answer) (rest more : List ℕ) → IsAnswer job first → IsAnswer job second → answer_text first ++ rest ≡ answer_text second ++ more → (shown_answer first ≡ shown_answer second) × (rest ≡ more) }
{}
