ghost use Rattle.sim_drive.specs.Preparing.{RisingLaw};
ghost use Rattle.sim_drive.specs.Setting.{SetupExample};
ghost use Rattle.sim_drive.specs.Totals.{TotalsExample};

/// Numbers in rising order are the only list that rises and has the same numbers.
pub fn rising_law()
    ensures { RisingLaw }
{}

/// What the run of a put and a get is made of, and what it comes to, with each number written out.
pub fn run_worked_law()
    ensures setup { SetupExample }
    ensures totals { TotalsExample }
{}
