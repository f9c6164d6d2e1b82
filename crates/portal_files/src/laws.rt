//! Laws of the files: what a file determines, and how takings are added up. The functions do nothing: each
//! contract is a law, which `specs/` states.

ghost use Rattle.portal_files.specs.Laws.{FixesPlans, FixesPrintFile, FixesReport, FixesSettings, NamesDays};
ghost use Rattle.portal_files.specs.Takings.{
  RuleFixesDays,
  TakingsAreAdded,
  TakingsLocalDay,
  TakingsRefundDay,
};

/// Law: the bytes of a plans file determine its list of plans.
pub fn file_fixes_plans()
    ensures { FixesPlans }
{}

/// Law: the bytes of a settings file determine the URLs, the tokens, and the rule of the zone.
pub fn file_fixes_settings()
    ensures { FixesSettings }
{}

/// Law: two days have the same text exactly if they are the same day.
pub fn text_names_day()
    ensures { NamesDays }
{}

/// Law: the zone and the sheet determine every byte of a print file.
pub fn sheet_fixes_print_file()
    ensures { FixesPrintFile }
{}

/// Law: the takings of the days determine every byte of a report.
pub fn takings_fix_report()
    ensures { FixesReport }
{}

/// Law: two zones of one rule give every moment the same local date.
#[tactic(auto, using(crate::proofs::Rules::rule_fixes_days))]
pub fn rule_fixes_days()
    ensures { RuleFixesDays }
{}

/// Law: the takings of a day are the sums over the sales and the refunds of that local date, in any order.
#[tactic(auto, using(crate::proofs::Added::takings_added))]
pub fn takings_are_added()
    ensures { TakingsAreAdded }
{}

/// Test vectors for takings: local dates decide the day of a sale, and of a refund.
///
/// One is a sale before midnight in UTC that is after midnight in the zone of the settings; the other is a
/// refund on the day after its sale.
pub fn takings_vectors_hold()
    ensures takings_local_day { TakingsLocalDay }
    ensures takings_refund_day { TakingsRefundDay }
{}
