//! Laws of journals. A call of one does nothing; its contract is the law.

ghost use Rattle.doc_server_journal_records.specs.Laws.{WrittenIsRead, ReadsOneWay, ReadIsNotDamaged, IsDamagedOnce};

/// What was written reads as the records that it is.
pub fn what_was_written_is_read()
    ensures { WrittenIsRead }
{}

/// Bytes read as no two lists of records.
pub fn bytes_read_one_way()
    ensures { ReadsOneWay }
{}

/// Bytes that read as records aren't damaged.
pub fn what_reads_is_not_damaged()
    ensures { ReadIsNotDamaged }
{}

/// Bytes are damaged at one record alone.
pub fn damage_is_at_one_record()
    ensures { IsDamagedOnce }
{}
