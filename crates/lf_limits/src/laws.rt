//! The constants of the code are the numbers of the rules.

ghost use Rattle.std.specs.Prelude.{◌≡◌};
ghost use Rattle.lf_limits.specs.Limits.{
  buffer_bytes,
  least_room,
  most_jobs,
  most_length,
  most_line_bytes,
  most_list_bytes,
  most_literal_bytes,
  most_marks,
  most_nesting,
  most_records,
  most_run_bytes,
  most_sets,
  most_size,
  most_slots,
  most_text_bytes,
  most_word_bytes,
};
ghost use Rattle.lf_limits.specs.declared.limits.TheConstants.{
  BUFFER_BYTES,
  LEAST_ROOM,
  MOST_JOBS,
  MOST_LENGTH,
  MOST_LINE_BYTES,
  MOST_LIST_BYTES,
  MOST_LITERAL_BYTES,
  MOST_MARKS,
  MOST_NESTING,
  MOST_RECORDS,
  MOST_RUN_BYTES,
  MOST_SETS,
  MOST_SIZE,
  MOST_SLOTS,
  MOST_TEXT_BYTES,
  MOST_WORD_BYTES,
};

/// Each constant of the code is the number of the rules.
pub fn constants_are_the_limits()
    ensures line { MOST_LINE_BYTES ≡ most_line_bytes }
    ensures size { MOST_SIZE ≡ most_size }
    ensures slots { MOST_SLOTS ≡ most_slots }
    ensures word { MOST_WORD_BYTES ≡ most_word_bytes }
    ensures text { MOST_TEXT_BYTES ≡ most_text_bytes }
    ensures literals { MOST_LITERAL_BYTES ≡ most_literal_bytes }
    ensures words { MOST_LIST_BYTES ≡ most_list_bytes }
    ensures lengths { MOST_LENGTH ≡ most_length }
    ensures jobs { MOST_JOBS ≡ most_jobs }
    ensures sets { MOST_SETS ≡ most_sets }
    ensures nesting { MOST_NESTING ≡ most_nesting }
    ensures records { MOST_RECORDS ≡ most_records }
    ensures run { MOST_RUN_BYTES ≡ most_run_bytes }
    ensures buffer { BUFFER_BYTES ≡ buffer_bytes }
    ensures room { LEAST_ROOM ≡ least_room }
    ensures marks { MOST_MARKS ≡ most_marks }
{}
