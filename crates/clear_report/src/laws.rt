//! Laws of the texts, for any plain data. A law has nothing to run; its `ensures` is proved.
ghost use Rattle.cascade.specs.Standings.{bank_numbers};
ghost use Rattle.clear_core.specs.declared.event.Raise.{Raise};
ghost use Rattle.clear_report.specs.Impact.{hurt_lines, hurts_header, impact_header};
ghost use Rattle.clear_report.specs.Impact.{impact_line, impact_text};
ghost use Rattle.clear_report.specs.Journals.{NamesBankOf};
ghost use Rattle.clear_report.specs.Pieces.{ArePieces, stacked};
ghost use Rattle.clear_report.specs.Savings.{saves_header, saves_lines, saving_line};
ghost use Rattle.clear_report.specs.Savings.{savings_header, savings_text};
ghost use Rattle.clear_report.specs.declared.piece.Piece.{Piece};
ghost use Rattle.clr_net.specs.Net.{Net};
ghost use Rattle.raise_journal.specs.Verdicts.{judged};
ghost use Rattle.rescue.specs.Saved.{banks_in_default};
ghost use Rattle.std.specs.Prelude.{◌≡◌, List};

/// The bank that the verdict on a journal names is a bank of the network, so that its line can be
/// written.
pub fn verdicts_name_banks_of_the_network()
    ensures { (net : Net) (rs : List Raise) → NamesBankOf net (judged net rs).verdict }
{}

/// The parts of all banks, put together in file order, are the text of who would hurt whom.
pub fn pieces_of_ruins_are_the_text()
    ensures { (net : Net) (pieces : List Piece)
        → ArePieces (impact_line net) (hurt_lines net) (bank_numbers net) pieces
        → stacked impact_header hurts_header pieces ≡ impact_text net }
{}

/// The parts of all banks in default, put together in file order, are the text of what saves each
/// of them.
pub fn pieces_of_savings_are_the_text()
    ensures { (net : Net) (pieces : List Piece)
        → ArePieces (saving_line net) (saves_lines net) (banks_in_default net) pieces
        → stacked savings_header saves_header pieces ≡ savings_text net }
{}
