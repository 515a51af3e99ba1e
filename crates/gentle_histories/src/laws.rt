// That there is a history between listed heads.
ghost use Rattle.gentle_histories.specs.{HistoriesExist, PumpedCellHasHistory};

/// Where listed pairs have the signs and all heads between them are gentle, a history of gentle heads within them nearly solves the model.
pub fn histories_exist()
    ensures { HistoriesExist }
{}

/// The pumped cell has one between its listed heads.
pub fn pumped_cell_has_history()
    ensures { PumpedCellHasHistory }
{}
